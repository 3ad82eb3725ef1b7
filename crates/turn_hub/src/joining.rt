//! How a joiner takes an end in.
ghost use Rattle.std.specs.Prelude.{◌≡◌, ◌<◌, [], ◌∷◌, length, Some, None, IfOk, IfErr};
ghost use Rattle.hub_core.specs.declared.status.Status.TheVariants.{Over};
ghost use Rattle.hub_core.specs.declared.state.HubState.TheVariants.{All};
ghost use Rattle.hub_core.specs.declared.deed.Deed.TheVariants.{Commits};
ghost use Rattle.hub_core.specs.Tally.{record_at};

use crate::answers::JoinAnswer;
use crate::ending::counted;
use crate::handing::reach_waits;
use crate::hub::TurnHub;
use crate::joinee::Joinee;
use crate::seat::Place;
use crate::seeking::joinee_of;
use crate::taking_in::take_in;
use hub_core::{Deed, Desk, HubState, Plan, Revision, Sight, Status, empty};

// The join by this revision.
fn plan_join(plan: &mut Plan, of: u32)
    ensures { (plan.new.deeds.items ≡ Commits of ∷ []) × (plan.new.leaves ≡ None)
        × (plan.new.keeps ≡ None) }
{
    plan.clear();
    plan.add(Deed::Commits(of));
}

impl<L: Revision> TurnHub<L> {
    ghost use Rattle.hub_core.specs.Seats.{HasJoin};
    ghost use Rattle.turn_hub.specs.Answers.{HasCome, JoinSays};
    ghost use Rattle.turn_hub.specs.Turns.{IsOpen, IsIn, IsResting};
    ghost use Rattle.turn_hub.specs.Joinings.{IsGoneIn, IsOpenIn};
    ghost use Rattle.turn_hub.specs.Plans.{SameValue};
    ghost use Rattle.hub_core.specs.Tally.{HasDesk, lets_pass};

    // The joiner takes in the end of its joinee, of which there is a record: one entry, or for want
    // of memory none. The turn is given back.
    pub(crate) fn claim_in(
        &self,
        place: &mut Place<L>,
        mut desk: Box<Desk<L::Runner, L::AtJoin, L::End>>,
        of: u32,
        at: L::AtJoin,
    ) -> JoinAnswer<L::AtJoin, L::Claimed, L::Stopped>
        requires own { (place.old.table_id ≡ self.now.turn.shared.table_id)
            × IsOpen place.old.me }
        requires told { (v : Sight L.State) × IsIn L.machine L.ends v place.old.me.0 desk.value
            × HasJoin L.machine L.ends v.seat of at }
        requires free { desk.value.state ≡ All }
        requires group { L.machine.joiner_group at ≡ place.old.me.0.seat.group }
        requires over { (e : L.End)
            × (record_at desk.value.records.list.items (L.machine.on at) ≡ Some (Over e)) }
        ensures own { place.new.table_id ≡ place.old.table_id }
        ensures rests { IsResting place.old.me place.new.me }
        ensures mine { place.new.me.0.mine ≡ place.old.me.0.mine }
        ensures come { HasCome L.machine L.ends L.claimed L.stopped
            L.claimed_group L.stopped_group result }
        ensures answer { (v : Sight L.State) → IsIn L.machine L.ends v place.old.me.0 desk.value
            → JoinSays L.machine L.ends L.claimed L.stopped L.claimed_group L.stopped_group
            v.seat place.new.me.0.seat of at result }
    {
        let on = L::on(&at);
        let held = &mut *desk;
        if !held.journal.reserve(1) {
            self.put_home_halted(place, desk);
            return JoinAnswer::OutOfMemory(at);
        }
        plan_join(&mut held.plan, of);
        let (mut desk, tally) = self.carry_out(place, desk);
        let last = &mut *desk;
        last.journal.enter(counted(tally), of);
        match last.records.exchange(on, Status::Gone) {
            Status::Over(end) => {
                self.put_home(place, desk);
                take_in::<L>(at, end)
            },
            other => {
                empty(Some(other));
                unreachable!()
            },
        }
    }

    // How many revisions there are at a moment of the turn, at which nothing is done.
    pub(crate) fn count_in(
        &self,
        place: &mut Place<L>,
        mut desk: Box<Desk<L::Runner, L::AtJoin, L::End>>,
    ) -> (Box<Desk<L::Runner, L::AtJoin, L::End>>, u32)
        requires own { (place.old.table_id ≡ self.now.turn.shared.table_id)
            × IsOpen place.old.me }
        requires hand { HasDesk L.machine L.ends place.old.me.0 desk.value }
        requires free { desk.value.state ≡ All }
        ensures own { (place.new.table_id ≡ place.old.table_id) × IsOpen place.new.me }
        ensures view { (place.new.me.0.mine ≡ place.old.me.0.mine)
            × (place.new.me.0.limit ≡ place.old.me.0.limit)
            × (place.new.me.0.seat.turns ≡ place.old.me.0.seat.turns) }
        ensures same { SameValue desk.value result.0.value }
        ensures told { (v : Sight L.State) → IsIn L.machine L.ends v place.old.me.0 desk.value
            → IsIn L.machine L.ends v place.new.me.0 result.0.value }
        ensures counted { (h : HasDesk L.machine L.ends place.new.me.0 result.0.value)
            → result.1 ≡ length h.slots }
    {
        let held = &mut *desk;
        held.plan.clear();
        let (desk, tally) = self.carry_out(place, desk);
        (desk, counted(tally))
    }

    // The joinee was joined before: one entry, the last, or for want of memory none. The turn is
    // given back.
    pub(crate) fn twice_in(
        &self,
        place: &mut Place<L>,
        mut desk: Box<Desk<L::Runner, L::AtJoin, L::End>>,
        of: u32,
        at: L::AtJoin,
    ) -> JoinAnswer<L::AtJoin, L::Claimed, L::Stopped>
        requires own { (place.old.table_id ≡ self.now.turn.shared.table_id)
            × IsOpen place.old.me }
        requires told { (v : Sight L.State)
            × (h : IsIn L.machine L.ends v place.old.me.0 desk.value)
            × HasJoin L.machine L.ends v.seat of at
            × IsGoneIn L.machine L.ends place.old.me.0 h.hand.slots (L.machine.on at) }
        requires free { desk.value.state ≡ All }
        ensures own { place.new.table_id ≡ place.old.table_id }
        ensures rests { IsResting place.old.me place.new.me }
        ensures mine { place.new.me.0.mine ≡ place.old.me.0.mine }
        ensures come { HasCome L.machine L.ends L.claimed L.stopped
            L.claimed_group L.stopped_group result }
        ensures answer { (v : Sight L.State) → IsIn L.machine L.ends v place.old.me.0 desk.value
            → JoinSays L.machine L.ends L.claimed L.stopped L.claimed_group L.stopped_group
            v.seat place.new.me.0.seat of at result }
    {
        let held = &mut *desk;
        if !held.journal.reserve(1) {
            self.put_home_halted(place, desk);
            return JoinAnswer::OutOfMemory(at);
        }
        plan_join(&mut held.plan, of);
        let (mut desk, tally) = self.halt_twice(place, desk);
        let last = &mut *desk;
        last.journal.enter(counted(tally), of);
        last.state = HubState::Twice;
        self.put_home(place, desk);
        JoinAnswer::Twice(at)
    }

    // The joiner waits for a number that no revision has yet, while no seat keeps a child. It does
    // not come back but for want of memory. The turn is given back.
    fn stray_in(
        &self,
        place: &mut Place<L>,
        mut desk: Box<Desk<L::Runner, L::AtJoin, L::End>>,
        of: u32,
        at: L::AtJoin,
    ) -> JoinAnswer<L::AtJoin, L::Claimed, L::Stopped>
        requires own { (place.old.table_id ≡ self.now.turn.shared.table_id)
            × IsOpen place.old.me }
        requires told { (v : Sight L.State)
            × (h : IsIn L.machine L.ends v place.old.me.0 desk.value)
            × HasJoin L.machine L.ends v.seat of at
            × IsOpenIn L.machine L.ends place.old.me.0 h.hand.slots (L.machine.on at) }
        requires free { desk.value.state ≡ All }
        requires mine { place.old.me.0.mine ≡ [] }
        requires group { L.machine.joiner_group at ≡ place.old.me.0.seat.group }
        requires lent { desk.value.lent ≡ 0 }
        ensures own { place.new.table_id ≡ place.old.table_id }
        ensures rests { IsResting place.old.me place.new.me }
        ensures mine { place.new.me.0.mine ≡ [] }
        ensures answer { (v : Sight L.State) → IsIn L.machine L.ends v place.old.me.0 desk.value
            → JoinSays L.machine L.ends L.claimed L.stopped L.claimed_group L.stopped_group
            v.seat place.new.me.0.seat of at result }
    {
        let on = L::on(&at);
        let held = &mut *desk;
        if !reach_waits(&mut held.records, on) {
            self.put_home_halted(place, desk);
            return JoinAnswer::OutOfMemory(at);
        }
        held.strays = true;
        self.await_in(place, desk, of, at);
        JoinAnswer::Waits
    }

    // The joinee has no record: a seat keeps it, or it was joined, or there is none yet. The joiner
    // comes back where seats keep children, and the turn is given back as if there had been none.
    fn seek_in(
        &self,
        place: &mut Place<L>,
        desk: Box<Desk<L::Runner, L::AtJoin, L::End>>,
        of: u32,
        at: L::AtJoin,
    ) -> Result<JoinAnswer<L::AtJoin, L::Claimed, L::Stopped>, L::AtJoin>
        requires own { (place.old.table_id ≡ self.now.turn.shared.table_id)
            × IsOpen place.old.me }
        requires told { (v : Sight L.State) × IsIn L.machine L.ends v place.old.me.0 desk.value
            × HasJoin L.machine L.ends v.seat of at }
        requires free { desk.value.state ≡ All }
        requires mine { place.old.me.0.mine ≡ [] }
        requires group { L.machine.joiner_group at ≡ place.old.me.0.seat.group }
        requires none { record_at desk.value.records.list.items (L.machine.on at) ≡ None }
        ensures own { place.new.table_id ≡ place.old.table_id }
        ensures came { IfOk result (λ r. IsResting place.old.me place.new.me
            × (place.new.me.0.mine ≡ [])
            × ((v : Sight L.State) → IsIn L.machine L.ends v place.old.me.0 desk.value
            → JoinSays L.machine L.ends L.claimed L.stopped L.claimed_group L.stopped_group
            v.seat place.new.me.0.seat of at r)) }
        ensures sought { IfErr result (λ a. (a ≡ at)
            × (place.new.me ≡ (lets_pass place.old.me.0, []))) }
    {
        if desk.lent > 0 {
            self.pass_home(place, desk);
            return Err(at);
        }
        let (desk, many) = self.count_in(place, desk);
        if L::on(&at) < many {
            return Ok(self.twice_in(place, desk, of, at));
        }
        Ok(self.stray_in(place, desk, of, at))
    }

    // One try of a join, which comes to nothing where the joinee has no record and seats keep
    // children: the joiner comes back then.
    pub(crate) fn join_in(
        &self,
        place: &mut Place<L>,
        desk: Box<Desk<L::Runner, L::AtJoin, L::End>>,
        of: u32,
        at: L::AtJoin,
    ) -> Result<JoinAnswer<L::AtJoin, L::Claimed, L::Stopped>, L::AtJoin>
        requires own { (place.old.table_id ≡ self.now.turn.shared.table_id)
            × IsOpen place.old.me }
        requires told { (v : Sight L.State) × IsIn L.machine L.ends v place.old.me.0 desk.value
            × HasJoin L.machine L.ends v.seat of at }
        requires free { desk.value.state ≡ All }
        requires mine { place.old.me.0.mine ≡ [] }
        requires group { L.machine.joiner_group at ≡ place.old.me.0.seat.group }
        ensures own { place.new.table_id ≡ place.old.table_id }
        ensures came { IfOk result (λ r. IsResting place.old.me place.new.me
            × (place.new.me.0.mine ≡ [])
            × ((v : Sight L.State) → IsIn L.machine L.ends v place.old.me.0 desk.value
            → JoinSays L.machine L.ends L.claimed L.stopped L.claimed_group L.stopped_group
            v.seat place.new.me.0.seat of at r)) }
        ensures sought { IfErr result (λ a. (a ≡ at)
            × (place.new.me ≡ (lets_pass place.old.me.0, []))) }
    {
        match joinee_of(&desk.records, L::on(&at)) {
            Joinee::Over => Ok(self.claim_in(place, desk, of, at)),
            Joinee::Gone => Ok(self.twice_in(place, desk, of, at)),
            Joinee::Open => {
                self.await_in(place, desk, of, at);
                Ok(JoinAnswer::Waits)
            },
            Joinee::Nowhere => self.seek_in(place, desk, of, at),
        }
    }
}
