//! How a seat takes what is ready.
ghost use Rattle.std.specs.Prelude.{◌≡◌, [], ◌∷◌, None};
ghost use Rattle.hub_core.specs.declared.state.HubState.TheVariants.{All};
ghost use Rattle.hub_core.specs.declared.deed.Deed.TheVariants.{Draws};
ghost use Rattle.hub_core.specs.Marks.{first_in};
ghost use Rattle.turn_hub.specs.declared.answers.Onward.TheVariants.{Nothing};

use crate::answers::Onward;
use crate::hub::TurnHub;
use crate::seat::Place;
use hub_core::{Deed, Desk, Plan, Revision, RunQueue, Sight, Status, empty};

/// The first number that is ready.
pub(crate) fn first_ready(queue: &RunQueue) -> Option<u32>
    ensures { result ≡ first_in queue.now.ready }
{
    match queue.ready {
        None => None,
        Some(chain) => Some(chain.first),
    }
}

/// A revision that no seat has is taken.
pub(crate) fn plan_draw(plan: &mut Plan, number: u32)
    ensures { (plan.new.deeds.items ≡ Draws number ∷ []) × (plan.new.leaves ≡ None)
        × (plan.new.keeps ≡ None) }
{
    plan.clear();
    plan.add(Deed::Draws(number));
}

impl<L: Revision> TurnHub<L> {
    ghost use Rattle.turn_hub.specs.Answers.{OnwardSays};
    ghost use Rattle.turn_hub.specs.Turns.{IsOpen, IsIn, IsResting};
    ghost use Rattle.turn_hub.specs.Nones.{NoneSays};

    // Takes the first that is ready, and gives the turn back.
    pub(crate) fn take_next(
        &self,
        place: &mut Place<L>,
        mut desk: Box<Desk<L::Runner, L::AtJoin, L::End>>,
    ) -> Onward<L::Runner, L::AtJoin>
        requires own { (place.old.table_id ≡ self.now.turn.shared.table_id)
            × IsOpen place.old.me }
        requires told { (v : Sight L.State) × IsIn L.machine L.ends v place.old.me.0 desk.value }
        requires free { desk.value.state ≡ All }
        ensures own { place.new.table_id ≡ place.old.table_id }
        ensures rests { IsResting place.old.me place.new.me }
        ensures mine { place.new.me.0.mine ≡ place.old.me.0.mine }
        ensures answer { (v : Sight L.State) → IsIn L.machine L.ends v place.old.me.0 desk.value
            → OnwardSays L.machine L.ends place.new.me.0.seat.said v.seat place.new.me.0.seat
            result }
        ensures none { (v : Sight L.State) → IsIn L.machine L.ends v place.old.me.0 desk.value
            → result ≡ Nothing → NoneSays L.machine L.ends v place.new.me.0
            desk.value.records.queue.unfinished }
    {
        let held = &mut *desk;
        let Some(number) = first_ready(&held.records.queue) else {
            self.put_home(place, desk);
            return Onward::Nothing;
        };
        plan_draw(&mut held.plan, number);
        let (mut desk, _) = self.carry_out(place, desk);
        let last = &mut *desk;
        last.records.queue.take();
        match last.records.exchange(number, Status::Out) {
            Status::Ready(runner) => {
                self.put_home(place, desk);
                Onward::Run { number, runner }
            },
            Status::Waiting(at) => {
                self.put_home(place, desk);
                Onward::Retry { number, at }
            },
            other => {
                empty(Some(other));
                unreachable!()
            },
        }
    }
}
