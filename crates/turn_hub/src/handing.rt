//! How a seat hands a revision in that has made no leg since.
ghost use Rattle.std.specs.Prelude.{◌≡◌, ◌<◌, ◌≤◌, ℕ, List, [], ◌∷◌, length, true, Some, None, OnOk};
ghost use Rattle.std.specs.Prelude.{IfErr};
ghost use Rattle.hub_core.specs.declared.status.Status.TheVariants.{Out, Waiting};
ghost use Rattle.hub_core.specs.Chains.{DelaysOne};
ghost use Rattle.hub_core.specs.Recorded.{put_record, IsLonger};
ghost use Rattle.hub_core.specs.Tally.{record_at};
ghost use Rattle.hub_core.specs.declared.state.HubState.TheVariants.{All};
ghost use Rattle.hub_core.specs.declared.deed.Deed.TheVariants.{HandsIn};

use crate::hub::TurnHub;
use crate::seat::{HubSeat, Place};
use hub_core::{Deed, Desk, Plan, Records, Revision, Sight, Status, empty};
use std::sync::Wait;

// The revision is handed in, and this is no entry.
fn plan_hand(plan: &mut Plan, of: u32)
    ensures { (plan.new.deeds.items ≡ HandsIn of ∷ []) × (plan.new.leaves ≡ None)
        × (plan.new.keeps ≡ None) }
{
    plan.clear();
    plan.add(Deed::HandsIn(of));
}

/// A list of what waits for this number, where there is memory.
pub(crate) fn reach_waits<R, A, E>(records: &mut Records<R, A, E>, on: u32) -> bool
    requires queue { (length records.old.queue.links.items ≡ length records.old.list.items)
        × (length records.old.list.items ≤ length records.old.queue.waiters.items) }
    ensures longer { IsLonger records.old.queue records.new.queue records.old.list.items
        records.new.list.items }
    ensures reach { result ≡ true → on < length records.new.queue.waiters.items }
{
    records.queue.reach(on)
}

/// A joiner waits for the end of the revision `on`, of which there is a list of what waits.
pub(crate) fn wait_value<R, A, E>(records: &mut Records<R, A, E>, number: u32, at: A, on: u32)
    requires out { record_at records.old.list.items number ≡ Some Out }
    requires within { (number < length records.old.queue.links.items)
        × (on < length records.old.queue.waiters.items) }
    ensures now { records.new.list.items
        ≡ put_record records.old.list.items number (Waiting at) }
    ensures queue { DelaysOne records.old.queue records.new.queue number on }
{
    records.queue.wait(number, on);
    match records.exchange(number, Status::Waiting(at)) {
        Status::Out => {},
        other => empty(Some(other)),
    }
}

impl<L: Revision> TurnHub<L> {
    ghost use Rattle.hub_core.specs.Seats.{HasState, HasJoin, HadTurn};
    ghost use Rattle.hub_core.specs.Passes.{IsPass, named};
    ghost use Rattle.turn_hub.specs.Answers.{IsHalted, Waited};
    ghost use Rattle.turn_hub.specs.Keeping.{HandedBack};
    ghost use Rattle.turn_hub.specs.Turns.{IsOpen, IsIn, IsResting};
    ghost use Rattle.turn_hub.specs.Joinings.{IsOpenIn, IsTrackedIn};

    // The hub has a revision again that this seat took, and that is before its leg. The turn is
    // given back.
    fn back_in(
        &self,
        place: &mut Place<L>,
        mut desk: Box<Desk<L::Runner, L::AtJoin, L::End>>,
        of: u32,
        runner: L::Runner,
    )
        requires own { (place.old.table_id ≡ self.now.turn.shared.table_id)
            × IsOpen place.old.me }
        requires told { (v : Sight L.State) × IsIn L.machine L.ends v place.old.me.0 desk.value
            × HasState L.machine L.ends v.seat of (L.machine.runs runner) }
        requires free { desk.value.state ≡ All }
        requires mine { place.old.me.0.mine ≡ [] }
        requires group { L.machine.runner_group runner ≡ place.old.me.0.seat.group }
        ensures own { place.new.table_id ≡ place.old.table_id }
        ensures rests { IsResting place.old.me place.new.me }
        ensures mine { place.new.me.0.mine ≡ [] }
        ensures told { (v : Sight L.State) → IsIn L.machine L.ends v place.old.me.0 desk.value
            → HandedBack L.machine L.ends v.seat place.new.me.0.seat of }
    {
        let held = &mut *desk;
        plan_hand(&mut held.plan, of);
        let (mut desk, _) = self.carry_out(place, desk);
        let last = &mut *desk;
        last.records.hand_back(of, runner);
        self.put_home(place, desk);
    }

    /// Hands back the revision `of`, which is before its leg: it is ready again, and this is no
    /// entry. It comes back where a halt was entered, before or by this call.
    pub fn give_back<W: Wait>(
        &self,
        rt: &W,
        seat: &mut HubSeat<L>,
        of: u32,
        runner: L::Runner,
    ) -> Result<(), L::Runner>
        requires own { seat.old.place.table_id ≡ self.now.turn.shared.table_id }
        requires state { HasState L.machine L.ends seat.old.place.me.0.seat of
            (L.machine.runs runner) }
        requires group { L.machine.runner_group runner ≡ seat.old.place.me.0.seat.group }
        ensures own { seat.new.place.table_id ≡ seat.old.place.table_id }
        ensures turn { HadTurn seat.old.place.me.0.seat seat.new.place.me.0.seat }
        ensures ok { OnOk result (HandedBack L.machine L.ends seat.old.place.me.0.seat
            seat.new.place.me.0.seat of) }
        ensures err { IfErr result (λ r. (r ≡ runner) × IsHalted seat.old.place.me.0.seat
            seat.new.place.me.0.seat) }
    {
        let entered = self.enter_recorded(rt, &mut seat.place, &mut seat.patience, &mut seat.kept);
        let Some(desk) = entered else {
            return Err(runner);
        };
        self.back_in(&mut seat.place, desk, of, runner);
        Ok(())
    }

    // The hub keeps a joiner, whose joinee this seat has. The turn is given back.
    fn leave_in(
        &self,
        place: &mut Place<L>,
        mut desk: Box<Desk<L::Runner, L::AtJoin, L::End>>,
        of: u32,
        at: L::AtJoin,
    )
        requires own { (place.old.table_id ≡ self.now.turn.shared.table_id)
            × IsOpen place.old.me }
        requires told { (v : Sight L.State) × IsIn L.machine L.ends v place.old.me.0 desk.value
            × HasJoin L.machine L.ends v.seat of at }
        requires free { desk.value.state ≡ All }
        requires mine { place.old.me.0.mine ≡ [] }
        requires group { L.machine.joiner_group at ≡ place.old.me.0.seat.group }
        requires joinee { 0 < named (L.machine.on at) place.old.me.0.seat.passes }
        ensures own { place.new.table_id ≡ place.old.table_id }
        ensures rests { IsResting place.old.me place.new.me }
        ensures mine { place.new.me.0.mine ≡ [] }
        ensures told { (v : Sight L.State) → IsIn L.machine L.ends v place.old.me.0 desk.value
            → Waited L.machine L.ends v.seat place.new.me.0.seat of at }
    {
        let on = L::on(&at);
        let held = &mut *desk;
        plan_hand(&mut held.plan, of);
        let (mut desk, _) = self.carry_out(place, desk);
        let last = &mut *desk;
        wait_value(&mut last.records, of, at, on);
        self.put_home(place, desk);
    }

    // The hub keeps a joiner, whose joinee has not ended: this is no entry. The turn is given back.
    pub(crate) fn await_in(
        &self,
        place: &mut Place<L>,
        mut desk: Box<Desk<L::Runner, L::AtJoin, L::End>>,
        of: u32,
        at: L::AtJoin,
    )
        requires own { (place.old.table_id ≡ self.now.turn.shared.table_id)
            × IsOpen place.old.me }
        requires told { (v : Sight L.State)
            × (h : IsIn L.machine L.ends v place.old.me.0 desk.value)
            × HasJoin L.machine L.ends v.seat of at
            × IsOpenIn L.machine L.ends place.old.me.0 h.hand.slots (L.machine.on at) }
        requires free { desk.value.state ≡ All }
        requires mine { place.old.me.0.mine ≡ [] }
        requires group { L.machine.joiner_group at ≡ place.old.me.0.seat.group }
        requires tracked { IsTrackedIn desk.value (L.machine.on at) }
        requires within { L.machine.on at < length desk.value.records.queue.waiters.items }
        ensures own { place.new.table_id ≡ place.old.table_id }
        ensures rests { IsResting place.old.me place.new.me }
        ensures mine { place.new.me.0.mine ≡ [] }
        ensures told { (v : Sight L.State) → IsIn L.machine L.ends v place.old.me.0 desk.value
            → Waited L.machine L.ends v.seat place.new.me.0.seat of at }
    {
        let on = L::on(&at);
        let held = &mut *desk;
        plan_hand(&mut held.plan, of);
        let (mut desk, _) = self.carry_out(place, desk);
        let last = &mut *desk;
        wait_value(&mut last.records, of, at, on);
        self.put_home(place, desk);
    }

    /// Hands in the joiner `of`, whose joinee this seat has. It comes back where a halt was entered,
    /// before or by this call.
    pub fn leave<W: Wait>(
        &self,
        rt: &W,
        seat: &mut HubSeat<L>,
        of: u32,
        at: L::AtJoin,
    ) -> Result<(), L::AtJoin>
        requires own { seat.old.place.table_id ≡ self.now.turn.shared.table_id }
        requires event { HasJoin L.machine L.ends seat.old.place.me.0.seat of at }
        requires group { L.machine.joiner_group at ≡ seat.old.place.me.0.seat.group }
        requires joinee { (found : List ℕ)
            × IsPass seat.old.place.me.0.seat.passes (L.machine.on at) found }
        ensures own { seat.new.place.table_id ≡ seat.old.place.table_id }
        ensures turn { HadTurn seat.old.place.me.0.seat seat.new.place.me.0.seat }
        ensures ok { OnOk result (Waited L.machine L.ends seat.old.place.me.0.seat
            seat.new.place.me.0.seat of at) }
        ensures err { IfErr result (λ a. (a ≡ at) × IsHalted seat.old.place.me.0.seat
            seat.new.place.me.0.seat) }
    {
        let entered = self.enter_recorded(rt, &mut seat.place, &mut seat.patience, &mut seat.kept);
        let Some(desk) = entered else {
            return Err(at);
        };
        self.leave_in(&mut seat.place, desk, of, at);
        Ok(())
    }
}
