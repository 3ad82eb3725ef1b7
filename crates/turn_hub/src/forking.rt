//! How a seat forks in a turn, where the child goes to the hub.
ghost use Rattle.std.specs.Prelude.{◌≡◌, ◌<◌, ◌≤◌, [], true, length, Some, None, IfOk, IfErr};
ghost use Rattle.hub_core.specs.declared.state.HubState.TheVariants.{All};
ghost use Rattle.hub_core.specs.Journaled.{HasRoomFor};
ghost use Rattle.turn_hub.specs.Plans.{HasMoreRoom, fork_deeds};

use crate::forked::Forking;
use crate::hub::TurnHub;
use crate::seat::{HubSeat, Place};
use hub_core::{Deed, Desk, Plan, Revision, Sight};
use std::sync::Wait;

// A fork of this revision.
fn plan_fork(plan: &mut Plan, of: u32)
    ensures deeds { plan.new.deeds.items ≡ fork_deeds of }
    ensures kept { (plan.new.leaves ≡ None) × (plan.new.keeps ≡ None) }
    ensures forks { plan.new.forks ≡ of }
{
    plan.clear();
    plan.add(Deed::Commits(of));
    plan.forks = of;
}

// Room for the entry, and for the record of the child.
fn make_birth<R, A, E>(desk: &mut Desk<R, A, E>, number: u32) -> bool
    requires queue { (length desk.old.records.queue.links.items
        ≡ length desk.old.records.list.items)
        × (length desk.old.records.list.items ≤ length desk.old.records.queue.waiters.items) }
    ensures same { HasMoreRoom desk.old desk.new }
    ensures room { result ≡ true → HasRoomFor 1 desk.new.journal }
    ensures reach { result ≡ true → number < length desk.new.records.list.items }
{
    let room = desk.journal.reserve(1);
    let reach = desk.records.reach(number);
    room && reach
}

impl<L: Revision> TurnHub<L> {
    ghost use Rattle.hub_core.specs.Seats.{HasFork, HadTurn};
    ghost use Rattle.hub_core.specs.Tally.{HasDesk};
    ghost use Rattle.turn_hub.specs.Answers.{Forked, IsHalted};
    ghost use Rattle.turn_hub.specs.Turns.{IsOpen, IsIn, IsResting};
    ghost use Rattle.turn_hub.specs.Forkings.{ForkingSays};

    // One try to enter the fork of a revision that this seat has.
    fn try_fork(
        &self,
        place: &mut Place<L>,
        desk: Box<Desk<L::Runner, L::AtJoin, L::End>>,
        of: u32,
        child: L::Runner,
    ) -> Forking<L::Runner, L::AtJoin, L::End>
        requires own { (place.old.table_id ≡ self.now.turn.shared.table_id)
            × IsOpen place.old.me }
        requires hand { HasDesk L.machine L.ends place.old.me.0 desk.value }
        requires free { desk.value.state ≡ All }
        requires event { HasFork L.machine L.ends place.old.me.0.seat of child }
        requires group { L.machine.runner_group child ≡ place.old.me.0.seat.group }
        ensures own { place.new.table_id ≡ place.old.table_id }
        ensures told { ForkingSays L.machine L.ends place.old.me place.new.me desk.value of child
            result }
    {
        let (mut desk, number) = self.open_number(place, desk);
        let Some(number) = number else {
            self.put_home_halted(place, desk);
            return Forking::Halted(child);
        };
        let held = &mut *desk;
        if !make_birth(held, number) {
            self.put_home_halted(place, desk);
            return Forking::Halted(child);
        }
        plan_fork(&mut held.plan, of);
        let (mut desk, tally) = self.carry_fork(place, desk, number);
        if tally != 2 * number as u64 {
            return Forking::Missed(desk, child);
        }
        let last = &mut *desk;
        last.journal.enter(number, of);
        last.records.bear(number, child);
        self.put_home(place, desk);
        Forking::Made(number)
    }

    // Tries until the tally is as it was found, or a halt is entered. The turn is given back.
    fn fork_in<W: Wait>(
        &self,
        rt: &W,
        place: &mut Place<L>,
        desk: Box<Desk<L::Runner, L::AtJoin, L::End>>,
        of: u32,
        child: L::Runner,
    ) -> Result<u32, L::Runner>
        requires own { (place.old.table_id ≡ self.now.turn.shared.table_id)
            × IsOpen place.old.me }
        requires hand { HasDesk L.machine L.ends place.old.me.0 desk.value }
        requires free { desk.value.state ≡ All }
        requires event { HasFork L.machine L.ends place.old.me.0.seat of child }
        requires group { L.machine.runner_group child ≡ place.old.me.0.seat.group }
        ensures own { place.new.table_id ≡ place.old.table_id }
        ensures rests { IsResting place.old.me place.new.me }
        ensures mine { place.new.me.0.mine ≡ place.old.me.0.mine }
        ensures ok { IfOk result (λ n. (v : Sight L.State)
            → IsIn L.machine L.ends v place.old.me.0 desk.value
            → HasFork L.machine L.ends v.seat of child
            → Forked L.machine L.ends v.seat place.new.me.0.seat of child n) }
        ensures err { IfErr result (λ c. (c ≡ child) × ((v : Sight L.State)
            → IsIn L.machine L.ends v place.old.me.0 desk.value
            → IsHalted v.seat place.new.me.0.seat)) }
    {
        let mut desk = desk;
        let mut child = child;
        for _ in rt.forever() {
            match self.try_fork(place, desk, of, child) {
                Forking::Made(number) => return Ok(number),
                Forking::Missed(next, back) => {
                    desk = next;
                    child = back;
                },
                Forking::Halted(back) => return Err(back),
            }
        }
        unreachable!()
    }

    /// Hands in the child of a fork of the revision `of`, and answers its number. The child comes
    /// back for want of memory, and where no number is left, and want of memory is then entered. It
    /// comes back after a halt too.
    pub fn fork<W: Wait>(
        &self,
        rt: &W,
        seat: &mut HubSeat<L>,
        of: u32,
        child: L::Runner,
    ) -> Result<u32, L::Runner>
        requires own { seat.old.place.table_id ≡ self.now.turn.shared.table_id }
        requires event { HasFork L.machine L.ends seat.old.place.me.0.seat of child }
        requires group { L.machine.runner_group child ≡ seat.old.place.me.0.seat.group }
        ensures own { seat.new.place.table_id ≡ seat.old.place.table_id }
        ensures turn { HadTurn seat.old.place.me.0.seat seat.new.place.me.0.seat }
        ensures ok { IfOk result (λ n. Forked L.machine L.ends seat.old.place.me.0.seat
            seat.new.place.me.0.seat of child n) }
        ensures err { IfErr result (λ c. (c ≡ child) × IsHalted seat.old.place.me.0.seat
            seat.new.place.me.0.seat) }
    {
        let entered = self.enter_free(rt, &mut seat.place, &mut seat.patience);
        let Some(desk) = entered else {
            return Err(child);
        };
        self.fork_in(rt, &mut seat.place, desk, of, child)
    }
}
