//! How a seat with the turn forks behind the end of a joinee and its join, where the child goes to
//! the hub.
ghost use Rattle.std.specs.Prelude.{◌≡◌, ◌<◌, ◌≤◌, ℕ, [], true, length, Some, None, IfOk, IfErr};
ghost use Rattle.revision_machine.specs.Numbered.{Bears};
ghost use Rattle.hub_core.specs.declared.state.HubState.TheVariants.{All};
ghost use Rattle.hub_core.specs.Journaled.{HasRoomFor};
ghost use Rattle.turn_hub.specs.Plans.{HasMoreRoom, behind_deeds, lone_of};

use crate::forked::Forking;
use crate::hub::TurnHub;
use crate::kept::{note_keep, number_if, settle_value};
use crate::seat::{HubSeat, Place};
use hub_core::{Deed, Desk, Plan, Revision, Sight};
use std::sync::Wait;

// The end of the joinee, its join by `of`, and the fork of that.
fn plan_behind(plan: &mut Plan, joinee: u32, of: u32, lone: bool)
    ensures deeds { plan.new.deeds.items ≡ behind_deeds joinee of }
    ensures kept { (plan.new.leaves ≡ lone_of lone joinee) × (plan.new.keeps ≡ None) }
    ensures forks { plan.new.forks ≡ of }
{
    plan.clear();
    plan.add(Deed::Commits(joinee));
    plan.add(Deed::HandsIn(joinee));
    plan.add(Deed::Commits(of));
    plan.add(Deed::Commits(of));
    plan.leaves = number_if(lone, joinee);
    plan.forks = of;
}

// Room for the entries, and for the record of the child.
fn make_behind<R, A, E>(desk: &mut Desk<R, A, E>, number: u32) -> bool
    requires queue { (length desk.old.records.queue.links.items
        ≡ length desk.old.records.list.items)
        × (length desk.old.records.list.items ≤ length desk.old.records.queue.waiters.items) }
    ensures same { HasMoreRoom desk.old desk.new }
    ensures room { result ≡ true → HasRoomFor 3 desk.new.journal }
    ensures reach { result ≡ true → number < length desk.new.records.list.items }
{
    let room = desk.journal.reserve(3);
    let reach = desk.records.reach(number);
    room && reach
}

impl<L: Revision> TurnHub<L> {
    ghost use Rattle.hub_core.specs.Seats.{HadTurn, Owes};
    ghost use Rattle.hub_core.specs.Tally.{HasDesk};
    ghost use Rattle.turn_hub.specs.Answers.{ForkedBehind, HaltedBehind, IsHalted};
    ghost use Rattle.turn_hub.specs.Turns.{IsOpen, IsIn, IsResting};
    ghost use Rattle.turn_hub.specs.Plans.{lone_list};
    ghost use Rattle.turn_hub.specs.Forkings.{BehindSays};

    // One try to enter the end of the joinee, its join by `of` and the fork of that at one moment.
    fn try_behind(
        &self,
        place: &mut Place<L>,
        desk: Box<Desk<L::Runner, L::AtJoin, L::End>>,
        lone: bool,
        joinee: u32,
        of: u32,
        child: L::Runner,
    ) -> Forking<L::Runner, L::AtJoin, L::End>
        requires own { (place.old.table_id ≡ self.now.turn.shared.table_id)
            × IsOpen place.old.me }
        requires hand { HasDesk L.machine L.ends place.old.me.0 desk.value }
        requires free { desk.value.state ≡ All }
        requires mine { place.old.me.0.mine ≡ lone_list lone joinee }
        requires event { (l : L.State) × (forker : ℕ → L.State)
            × Owes L.machine L.ends place.old.me.0.seat joinee of l
            × (L.machine.next l ≡ Bears forker (L.machine.runs child)) }
        requires group { L.machine.runner_group child ≡ place.old.me.0.seat.group }
        ensures own { place.new.table_id ≡ place.old.table_id }
        ensures told { BehindSays L.machine L.ends place.old.me place.new.me desk.value joinee of
            child result }
    {
        let (mut desk, number) = self.open_number(place, desk);
        let Some(number) = number else {
            self.put_home_halted(place, desk);
            return Forking::Halted(child);
        };
        let held = &mut *desk;
        if !make_behind(held, number) {
            self.put_home_halted(place, desk);
            return Forking::Halted(child);
        }
        plan_behind(&mut held.plan, joinee, of, lone);
        let (mut desk, tally) = self.carry_fork(place, desk, number);
        if tally != 2 * number as u64 {
            return Forking::Missed(desk, child);
        }
        let last = &mut *desk;
        settle_value(last, joinee, lone);
        note_keep(&mut last.journal, number, joinee, of);
        last.records.bear(number, child);
        self.put_home(place, desk);
        Forking::Made(number)
    }

    // Tries until the tally is as it was found, or a halt is entered. The turn is given back.
    fn behind_in<W: Wait>(
        &self,
        rt: &W,
        place: &mut Place<L>,
        desk: Box<Desk<L::Runner, L::AtJoin, L::End>>,
        lone: bool,
        joinee: u32,
        of: u32,
        child: L::Runner,
    ) -> Result<u32, L::Runner>
        requires own { (place.old.table_id ≡ self.now.turn.shared.table_id)
            × IsOpen place.old.me }
        requires hand { HasDesk L.machine L.ends place.old.me.0 desk.value }
        requires free { desk.value.state ≡ All }
        requires mine { place.old.me.0.mine ≡ lone_list lone joinee }
        requires event { (l : L.State) × (forker : ℕ → L.State)
            × Owes L.machine L.ends place.old.me.0.seat joinee of l
            × (L.machine.next l ≡ Bears forker (L.machine.runs child)) }
        requires group { L.machine.runner_group child ≡ place.old.me.0.seat.group }
        ensures own { place.new.table_id ≡ place.old.table_id }
        ensures rests { IsResting place.old.me place.new.me }
        ensures ok { IfOk result (λ n. (place.new.me.0.mine ≡ []) × ((v : Sight L.State)
            → IsIn L.machine L.ends v place.old.me.0 desk.value
            → (l : L.State) → Owes L.machine L.ends v.seat joinee of l
            → ForkedBehind L.machine L.ends v.seat place.new.me.0.seat joinee of l child n)) }
        ensures err { IfErr result (λ c. (c ≡ child)
            × (place.new.me.0.mine ≡ place.old.me.0.mine) × ((v : Sight L.State)
            → IsIn L.machine L.ends v place.old.me.0 desk.value
            → IsHalted v.seat place.new.me.0.seat)) }
    {
        let mut desk = desk;
        let mut child = child;
        for _ in rt.forever() {
            match self.try_behind(place, desk, lone, joinee, of, child) {
                Forking::Made(number) => return Ok(number),
                Forking::Missed(next, back) => {
                    desk = next;
                    child = back;
                },
                Forking::Halted(back) => return Err(back),
            }
        }
        unreachable!()
    }

    /// The same, and in the same turn the fork of `of`, as `fork` does it. The child comes back
    /// where a halt was entered, before or by this call.
    pub fn fork_behind<W: Wait>(
        &self,
        rt: &W,
        seat: &mut HubSeat<L>,
        joinee: u32,
        of: u32,
        child: L::Runner,
    ) -> Result<u32, L::Runner>
        requires own { seat.old.place.table_id ≡ self.now.turn.shared.table_id }
        requires event { (l : L.State) × (forker : ℕ → L.State)
            × Owes L.machine L.ends seat.old.place.me.0.seat joinee of l
            × (L.machine.next l ≡ Bears forker (L.machine.runs child)) }
        requires group { L.machine.runner_group child ≡ seat.old.place.me.0.seat.group }
        ensures own { seat.new.place.table_id ≡ seat.old.place.table_id }
        ensures turn { HadTurn seat.old.place.me.0.seat seat.new.place.me.0.seat }
        ensures ok { IfOk result (λ n. (l : L.State)
            → Owes L.machine L.ends seat.old.place.me.0.seat joinee of l
            → ForkedBehind L.machine L.ends seat.old.place.me.0.seat seat.new.place.me.0.seat
            joinee of l child n) }
        ensures err { IfErr result (λ c. (c ≡ child) × ((l : L.State)
            → Owes L.machine L.ends seat.old.place.me.0.seat joinee of l
            → HaltedBehind L.machine L.ends seat.old.place.me.0.seat seat.new.place.me.0.seat
            joinee of l)) }
    {
        let entered = self.enter_but(
            rt,
            &mut seat.place,
            &mut seat.patience,
            &mut seat.kept,
            joinee,
        );
        let Some(desk) = entered else {
            return Err(child);
        };
        let lone = seat.kept.is_some();
        let number = self.behind_in(rt, &mut seat.place, desk, lone, joinee, of, child)?;
        seat.kept = None;
        Ok(number)
    }
}
