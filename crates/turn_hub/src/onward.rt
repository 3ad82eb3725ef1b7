//! How a joiner is handed in where the seat goes on in the same turn with what comes first.
ghost use Rattle.std.specs.Prelude.{◌≡◌, ◌<◌, ◌≤◌, [], ◌∷◌, length, Some, None, IfOk, IfErr, vec_len};
ghost use Rattle.hub_core.specs.declared.status.Status.TheVariants.{Ready};
ghost use Rattle.hub_core.specs.declared.state.HubState.TheVariants.{All};
ghost use Rattle.hub_core.specs.declared.deed.Deed.TheVariants.{HandsIn, Draws};
ghost use Rattle.hub_core.specs.Marks.{first_in};
ghost use Rattle.hub_core.specs.Tally.{record_at};
ghost use Rattle.turn_hub.specs.Plans.{HasPlan};
ghost use Rattle.turn_hub.specs.Comings.{coming_of, coming_deeds};

use crate::answers::{JoinAnswer, JoinStep, Onward};
use crate::coming::Coming;
use crate::drawing::plan_draw;
use crate::firsts::{first_coming, plan_coming, take_first};
use crate::handing::{reach_waits, wait_value};
use crate::hub::TurnHub;
use crate::joinee::Joinee;
use crate::seat::Place;
use crate::seeking::{comes_next, joinee_of};
use hub_core::{Deed, Desk, Plan, Revision, Sight, empty};

// The joiner is handed in, and what comes first is taken.
fn plan_wait(plan: &mut Plan, of: u32, coming: Coming)
    ensures { (plan.new.deeds.items ≡ HandsIn of ∷ coming_deeds coming)
        × (plan.new.leaves ≡ None) × (plan.new.keeps ≡ None) }
{
    plan.clear();
    plan.add(Deed::HandsIn(of));
    plan_coming(plan, coming);
}

impl<L: Revision> TurnHub<L> {
    ghost use Rattle.hub_core.specs.Seats.{HasJoin};
    ghost use Rattle.hub_core.specs.Tally.{lets_pass};
    ghost use Rattle.turn_hub.specs.Answers.{WaitedOn, TookJoinee, JoinedOn};
    ghost use Rattle.turn_hub.specs.Turns.{IsOpen, IsIn, IsResting};
    ghost use Rattle.turn_hub.specs.Joinings.{IsOpenIn, IsTrackedIn};

    // The plan hands the joiner in and takes what comes first. It is carried out, and the turn is
    // given back.
    fn wait_planned(
        &self,
        place: &mut Place<L>,
        desk: Box<Desk<L::Runner, L::AtJoin, L::End>>,
        of: u32,
        at: L::AtJoin,
    ) -> Onward<L::Runner, L::AtJoin>
        requires own { (place.old.table_id ≡ self.now.turn.shared.table_id)
            × IsOpen place.old.me }
        requires told { (v : Sight L.State)
            × (h : IsIn L.machine L.ends v place.old.me.0 desk.value)
            × HasJoin L.machine L.ends v.seat of at
            × IsOpenIn L.machine L.ends place.old.me.0 h.hand.slots (L.machine.on at) }
        requires free { desk.value.state ≡ All }
        requires mine { place.old.me.0.mine ≡ [] }
        requires group { L.machine.joiner_group at ≡ place.old.me.0.seat.group }
        requires tracked { IsTrackedIn desk.value (L.machine.on at) }
        requires within { L.machine.on at < length desk.value.records.queue.waiters.items }
        requires plan { HasPlan desk.value
            (HandsIn of ∷ coming_deeds (coming_of (first_in desk.value.records.queue.ready)))
            None None }
        ensures own { place.new.table_id ≡ place.old.table_id }
        ensures rests { IsResting place.old.me place.new.me }
        ensures mine { place.new.me.0.mine ≡ [] }
        ensures answer { (v : Sight L.State) → IsIn L.machine L.ends v place.old.me.0 desk.value
            → WaitedOn L.machine L.ends v.seat place.new.me.0.seat of at result }
    {
        let on = L::on(&at);
        let (mut desk, _) = self.carry_out(place, desk);
        let last = &mut *desk;
        wait_value(&mut last.records, of, at, on);
        let next = take_first(&mut last.records);
        self.put_home(place, desk);
        next
    }

    // The hub keeps a joiner, whose joinee has not ended, and the seat takes what comes first. The
    // turn is given back.
    fn wait_on(
        &self,
        place: &mut Place<L>,
        mut desk: Box<Desk<L::Runner, L::AtJoin, L::End>>,
        of: u32,
        at: L::AtJoin,
    ) -> Onward<L::Runner, L::AtJoin>
        requires own { (place.old.table_id ≡ self.now.turn.shared.table_id)
            × IsOpen place.old.me }
        requires told { (v : Sight L.State)
            × (h : IsIn L.machine L.ends v place.old.me.0 desk.value)
            × HasJoin L.machine L.ends v.seat of at
            × IsOpenIn L.machine L.ends place.old.me.0 h.hand.slots (L.machine.on at) }
        requires free { desk.value.state ≡ All }
        requires mine { place.old.me.0.mine ≡ [] }
        requires group { L.machine.joiner_group at ≡ place.old.me.0.seat.group }
        requires tracked { IsTrackedIn desk.value (L.machine.on at) }
        requires within { L.machine.on at < length desk.value.records.queue.waiters.items }
        ensures own { place.new.table_id ≡ place.old.table_id }
        ensures rests { IsResting place.old.me place.new.me }
        ensures mine { place.new.me.0.mine ≡ [] }
        ensures answer { (v : Sight L.State) → IsIn L.machine L.ends v place.old.me.0 desk.value
            → WaitedOn L.machine L.ends v.seat place.new.me.0.seat of at result }
    {
        let held = &mut *desk;
        let coming = first_coming(&held.records.queue);
        plan_wait(&mut held.plan, of, coming);
        self.wait_planned(place, desk, of, at)
    }

    // The plan takes the first that is ready, which is before its leg. It is carried out, and the
    // turn is given back.
    fn run_planned(
        &self,
        place: &mut Place<L>,
        desk: Box<Desk<L::Runner, L::AtJoin, L::End>>,
        number: u32,
    ) -> L::Runner
        requires own { (place.old.table_id ≡ self.now.turn.shared.table_id)
            × IsOpen place.old.me }
        requires told { (v : Sight L.State) × IsIn L.machine L.ends v place.old.me.0 desk.value }
        requires free { desk.value.state ≡ All }
        requires plan { HasPlan desk.value (Draws number ∷ []) None None }
        requires first { first_in desk.value.records.queue.ready ≡ Some number }
        requires ready { (r : L.Runner)
            × (record_at desk.value.records.list.items number ≡ Some (Ready r)) }
        ensures own { place.new.table_id ≡ place.old.table_id }
        ensures rests { IsResting place.old.me place.new.me }
        ensures mine { place.new.me.0.mine ≡ place.old.me.0.mine }
        ensures answer { (v : Sight L.State) (a : L.AtJoin)
            → IsIn L.machine L.ends v place.old.me.0 desk.value → number ≡ L.machine.on a
            → TookJoinee L.machine L.ends v.seat place.new.me.0.seat a number result }
    {
        let (mut desk, _) = self.carry_out(place, desk);
        let last = &mut *desk;
        let next = take_first(&mut last.records);
        self.put_home(place, desk);
        match next {
            Onward::Run { runner, .. } => runner,
            other => {
                empty(Some(other));
                unreachable!()
            },
        }
    }

    // Takes the joinee, which comes first and is before its leg, and gives the turn back.
    fn take_joinee(
        &self,
        place: &mut Place<L>,
        mut desk: Box<Desk<L::Runner, L::AtJoin, L::End>>,
        number: u32,
    ) -> L::Runner
        requires own { (place.old.table_id ≡ self.now.turn.shared.table_id)
            × IsOpen place.old.me }
        requires told { (v : Sight L.State) × IsIn L.machine L.ends v place.old.me.0 desk.value }
        requires free { desk.value.state ≡ All }
        requires first { first_in desk.value.records.queue.ready ≡ Some number }
        requires ready { (r : L.Runner)
            × (record_at desk.value.records.list.items number ≡ Some (Ready r)) }
        ensures own { place.new.table_id ≡ place.old.table_id }
        ensures rests { IsResting place.old.me place.new.me }
        ensures mine { place.new.me.0.mine ≡ place.old.me.0.mine }
        ensures answer { (v : Sight L.State) (a : L.AtJoin)
            → IsIn L.machine L.ends v place.old.me.0 desk.value → number ≡ L.machine.on a
            → TookJoinee L.machine L.ends v.seat place.new.me.0.seat a number result }
    {
        let held = &mut *desk;
        plan_draw(&mut held.plan, number);
        self.run_planned(place, desk, number)
    }

    // A joiner whose joinee has not ended: the seat takes the joinee where that comes first and is
    // before its leg, and else the hub keeps the joiner. The turn is given back.
    fn take_or_wait(
        &self,
        place: &mut Place<L>,
        desk: Box<Desk<L::Runner, L::AtJoin, L::End>>,
        of: u32,
        at: L::AtJoin,
    ) -> JoinStep<L::Runner, L::AtJoin, L::Claimed, L::Stopped>
        requires own { (place.old.table_id ≡ self.now.turn.shared.table_id)
            × IsOpen place.old.me }
        requires told { (v : Sight L.State)
            × (h : IsIn L.machine L.ends v place.old.me.0 desk.value)
            × HasJoin L.machine L.ends v.seat of at
            × IsOpenIn L.machine L.ends place.old.me.0 h.hand.slots (L.machine.on at) }
        requires free { desk.value.state ≡ All }
        requires mine { place.old.me.0.mine ≡ [] }
        requires group { L.machine.joiner_group at ≡ place.old.me.0.seat.group }
        requires tracked { IsTrackedIn desk.value (L.machine.on at) }
        requires within { L.machine.on at < length desk.value.records.queue.waiters.items }
        ensures own { place.new.table_id ≡ place.old.table_id }
        ensures rests { IsResting place.old.me place.new.me }
        ensures mine { place.new.me.0.mine ≡ [] }
        ensures answer { (v : Sight L.State) → IsIn L.machine L.ends v place.old.me.0 desk.value
            → JoinedOn L.machine L.ends L.claimed L.stopped L.claimed_group L.stopped_group
            v.seat place.new.me.0.seat of at result }
    {
        let on = L::on(&at);
        if comes_next(&desk.records, on) {
            let runner = self.take_joinee(place, desk, on);
            return JoinStep::Joinee {
                number: on,
                runner,
                at,
            };
        }
        JoinStep::Waits(self.wait_on(place, desk, of, at))
    }

    // The joiner waits for a number that no revision has yet, while no seat keeps a child, and the
    // seat takes what comes first. The turn is given back.
    fn stray_on(
        &self,
        place: &mut Place<L>,
        mut desk: Box<Desk<L::Runner, L::AtJoin, L::End>>,
        of: u32,
        at: L::AtJoin,
    ) -> JoinStep<L::Runner, L::AtJoin, L::Claimed, L::Stopped>
        requires own { (place.old.table_id ≡ self.now.turn.shared.table_id)
            × IsOpen place.old.me }
        requires told { (v : Sight L.State)
            × (h : IsIn L.machine L.ends v place.old.me.0 desk.value)
            × HasJoin L.machine L.ends v.seat of at
            × IsOpenIn L.machine L.ends place.old.me.0 h.hand.slots (L.machine.on at) }
        requires free { desk.value.state ≡ All }
        requires mine { place.old.me.0.mine ≡ [] }
        requires group { L.machine.joiner_group at ≡ place.old.me.0.seat.group }
        requires lent { desk.value.lent ≡ 0 }
        ensures own { place.new.table_id ≡ place.old.table_id }
        ensures rests { IsResting place.old.me place.new.me }
        ensures mine { place.new.me.0.mine ≡ [] }
        ensures answer { (v : Sight L.State) → IsIn L.machine L.ends v place.old.me.0 desk.value
            → JoinedOn L.machine L.ends L.claimed L.stopped L.claimed_group L.stopped_group
            v.seat place.new.me.0.seat of at result }
    {
        let on = L::on(&at);
        let held = &mut *desk;
        if !reach_waits(&mut held.records, on) {
            self.put_home_halted(place, desk);
            return JoinStep::Came(JoinAnswer::OutOfMemory(at));
        }
        held.strays = true;
        JoinStep::Waits(self.wait_on(place, desk, of, at))
    }

    // The joinee has no record, as `seek_in` has it.
    fn seek_on(
        &self,
        place: &mut Place<L>,
        desk: Box<Desk<L::Runner, L::AtJoin, L::End>>,
        of: u32,
        at: L::AtJoin,
    ) -> Result<JoinStep<L::Runner, L::AtJoin, L::Claimed, L::Stopped>, L::AtJoin>
        requires own { (place.old.table_id ≡ self.now.turn.shared.table_id)
            × IsOpen place.old.me }
        requires told { (v : Sight L.State) × IsIn L.machine L.ends v place.old.me.0 desk.value
            × HasJoin L.machine L.ends v.seat of at }
        requires free { desk.value.state ≡ All }
        requires mine { place.old.me.0.mine ≡ [] }
        requires group { L.machine.joiner_group at ≡ place.old.me.0.seat.group }
        requires none { record_at desk.value.records.list.items (L.machine.on at) ≡ None }
        ensures own { place.new.table_id ≡ place.old.table_id }
        ensures came { IfOk result (λ r. IsResting place.old.me place.new.me
            × (place.new.me.0.mine ≡ [])
            × ((v : Sight L.State) → IsIn L.machine L.ends v place.old.me.0 desk.value
            → JoinedOn L.machine L.ends L.claimed L.stopped L.claimed_group L.stopped_group
            v.seat place.new.me.0.seat of at r)) }
        ensures sought { IfErr result (λ a. (a ≡ at)
            × (place.new.me ≡ (lets_pass place.old.me.0, []))) }
    {
        if desk.lent > 0 {
            self.pass_home(place, desk);
            return Err(at);
        }
        let (desk, many) = self.count_in(place, desk);
        if L::on(&at) < many {
            return Ok(JoinStep::Came(self.twice_in(place, desk, of, at)));
        }
        Ok(self.stray_on(place, desk, of, at))
    }

    // One try of a join, which comes to nothing where the joinee has no record and seats keep
    // children: the joiner comes back then.
    pub(crate) fn join_on(
        &self,
        place: &mut Place<L>,
        desk: Box<Desk<L::Runner, L::AtJoin, L::End>>,
        of: u32,
        at: L::AtJoin,
    ) -> Result<JoinStep<L::Runner, L::AtJoin, L::Claimed, L::Stopped>, L::AtJoin>
        requires own { (place.old.table_id ≡ self.now.turn.shared.table_id)
            × IsOpen place.old.me }
        requires told { (v : Sight L.State) × IsIn L.machine L.ends v place.old.me.0 desk.value
            × HasJoin L.machine L.ends v.seat of at }
        requires free { desk.value.state ≡ All }
        requires mine { place.old.me.0.mine ≡ [] }
        requires group { L.machine.joiner_group at ≡ place.old.me.0.seat.group }
        ensures own { place.new.table_id ≡ place.old.table_id }
        ensures came { IfOk result (λ r. IsResting place.old.me place.new.me
            × (place.new.me.0.mine ≡ [])
            × ((v : Sight L.State) → IsIn L.machine L.ends v place.old.me.0 desk.value
            → JoinedOn L.machine L.ends L.claimed L.stopped L.claimed_group L.stopped_group
            v.seat place.new.me.0.seat of at r)) }
        ensures sought { IfErr result (λ a. (a ≡ at)
            × (place.new.me ≡ (lets_pass place.old.me.0, []))) }
    {
        match joinee_of(&desk.records, L::on(&at)) {
            Joinee::Over => Ok(JoinStep::Came(self.claim_in(place, desk, of, at))),
            Joinee::Gone => Ok(JoinStep::Came(self.twice_in(place, desk, of, at))),
            Joinee::Open => Ok(self.take_or_wait(place, desk, of, at)),
            Joinee::Nowhere => self.seek_on(place, desk, of, at),
        }
    }
}
