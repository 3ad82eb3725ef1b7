//! How a seat with the turn forks and keeps the child.
ghost use Rattle.std.specs.Prelude.{◌≡◌, ◌<◌, ◌≤◌, ◌*◌, ◌++◌, ℕ, [], ◌∷◌, true, false, length, Some, None, IfSome};
ghost use Rattle.revision_machine.specs.Numbered.{Bears};
ghost use Rattle.hub_core.specs.declared.state.HubState.TheVariants.{All};
ghost use Rattle.hub_core.specs.declared.status.Status.TheVariants.{Out};
ghost use Rattle.hub_core.specs.Chains.{IsWithin, chain_at};
ghost use Rattle.hub_core.specs.Journaled.{HasRoomFor};
ghost use Rattle.hub_core.specs.Recorded.{IsLonger};
ghost use Rattle.hub_core.specs.Tally.{record_at, pairs};
ghost use Rattle.turn_hub.specs.Plans.{HasMoreRoom, IsSettled, IsTaken, IsBorn, keep_deeds, lone_of};

use crate::hub::{TALLY, TurnHub};
use crate::seat::Place;
use crate::tried::Tried;
use hub_core::{Deed, Desk, Journal, Plan, Records, Revision, Sight};
use std::sync::atomic::Ordering;

// The limit of a hub is at most this.
const MOST: u64 = 4_294_967_295;

// This number where that is so.
pub(crate) fn number_if(is: bool, number: u32) -> Option<u32>
    ensures { result ≡ lone_of is number }
{
    if is { Some(number) } else { None }
}

// The end of the joinee, its join by `of`, the fork of that, and the child.
fn plan_keep(plan: &mut Plan, joinee: u32, of: u32, number: u32, lone: bool, kept: bool)
    ensures deeds { plan.new.deeds.items ≡ keep_deeds joinee of number }
    ensures leaves { plan.new.leaves ≡ lone_of lone joinee }
    ensures keeps { plan.new.keeps ≡ lone_of kept number }
    ensures forks { plan.new.forks ≡ of }
{
    plan.clear();
    plan.add(Deed::Commits(joinee));
    plan.add(Deed::HandsIn(joinee));
    plan.add(Deed::Commits(of));
    plan.add(Deed::Commits(of));
    plan.add(Deed::Draws(number));
    plan.leaves = number_if(lone, joinee);
    plan.keeps = number_if(kept, number);
    plan.forks = of;
}

// A place for the record of the child, where it gets one.
fn reach_child<R, A, E>(records: &mut Records<R, A, E>, number: u32, kept: bool) -> bool
    requires queue { (length records.old.queue.links.items ≡ length records.old.list.items)
        × (length records.old.list.items ≤ length records.old.queue.waiters.items) }
    ensures longer { IsLonger records.old.queue records.new.queue records.old.list.items
        records.new.list.items }
    ensures reach { result ≡ true → kept ≡ false → number < length records.new.list.items }
{
    if kept {
        return true;
    }
    records.reach(number)
}

// Room for the entries, and for a record of the child where it gets one.
fn make_ready<R, A, E>(desk: &mut Desk<R, A, E>, number: u32, kept: bool) -> bool
    requires queue { (length desk.old.records.queue.links.items
        ≡ length desk.old.records.list.items)
        × (length desk.old.records.list.items ≤ length desk.old.records.queue.waiters.items) }
    ensures same { HasMoreRoom desk.old desk.new }
    ensures room { result ≡ true → HasRoomFor 3 desk.new.journal × (desk.new.lent < 4294967295) }
    ensures reach { result ≡ true → kept ≡ false
        → number < length desk.new.records.list.items }
{
    desk.journal.reserve(3)
        && desk.lent < 4_294_967_295
        && reach_child(&mut desk.records, number, kept)
}

// The joinee has ended, and was joined.
pub(crate) fn settle_value<R, A, E>(desk: &mut Desk<R, A, E>, joinee: u32, lone: bool)
    requires record { lone ≡ false → (record_at desk.old.records.list.items joinee ≡ Some Out)
        × (joinee < length desk.old.records.queue.waiters.items)
        × IsWithin (chain_at desk.old.records.queue.waiters.items joinee)
        (length desk.old.records.queue.links.items) }
    requires some { 0 < desk.old.records.queue.unfinished }
    requires lent { lone ≡ true → 0 < desk.old.lent }
    ensures settled { IsSettled lone joinee desk.old desk.new }
    ensures same { (desk.new.journal ≡ desk.old.journal) × (desk.new.state ≡ desk.old.state)
        × (desk.new.strays ≡ desk.old.strays) }
{
    if lone {
        desk.records.queue.end_one();
        desk.lent -= 1;
    } else {
        desk.records.end_joined(joinee);
    }
}

// The child is with the seat, which keeps it, or there is a record of it.
fn take_value<R, A, E>(desk: &mut Desk<R, A, E>, number: u32, kept: bool)
    requires record { kept ≡ false → (record_at desk.old.records.list.items number ≡ None)
        × (number < length desk.old.records.list.items) }
    requires few { (desk.old.records.queue.unfinished ≤ 4294967296)
        × (desk.old.lent < 4294967295) }
    ensures taken { IsTaken kept number desk.old desk.new }
    ensures born { IsBorn desk.old desk.new }
    ensures same { (desk.new.journal ≡ desk.old.journal) × (desk.new.state ≡ desk.old.state)
        × (desk.new.strays ≡ desk.old.strays) }
{
    desk.records.queue.begin_one();
    if kept {
        desk.lent += 1;
    } else {
        desk.records.record_kept(number);
    }
}

// The entries of the joinee and of its joiner, and that of the fork.
pub(crate) fn note_keep<E>(journal: &mut Journal<E>, count: u32, joinee: u32, of: u32)
    requires { HasRoomFor 3 journal.old }
    ensures entries { pairs journal.new.entries.items ≡ pairs journal.old.entries.items
        ++ (count, joinee) ∷ (count, of) ∷ (count, of) ∷ [] }
    ensures limit { journal.new.limit ≡ journal.old.limit }
{
    journal.enter(count, joinee);
    journal.enter(count, of);
    journal.enter(count, of);
}

// Room for this number, and for as many again, where there is memory.
fn raise_limit<E>(journal: &mut Journal<E>, number: u64) -> bool
    ensures entries { journal.new.entries.items ≡ journal.old.entries.items }
    ensures wide { result ≡ true → number < journal.new.limit }
    ensures none { result ≡ false → journal.new.limit ≡ journal.old.limit }
{
    let limit = number.saturating_mul(2).saturating_add(64).min(MOST);
    if number >= limit {
        return false;
    }
    journal.widen(limit as usize)
}

impl<L: Revision> TurnHub<L> {
    ghost use Rattle.hub_core.specs.Seats.{Owes};
    ghost use Rattle.hub_core.specs.Tally.{HasDesk};
    ghost use Rattle.turn_hub.specs.Turns.{IsOpen, IsIn};
    ghost use Rattle.turn_hub.specs.Plans.{lone_list};
    ghost use Rattle.turn_hub.specs.Tries.{TriedSays};

    // The next number, as the tally is now, where there is room for a revision of that number.
    pub(crate) fn open_number(
        &self,
        place: &mut Place<L>,
        mut desk: Box<Desk<L::Runner, L::AtJoin, L::End>>,
    ) -> (Box<Desk<L::Runner, L::AtJoin, L::End>>, Option<u32>)
        requires own { (place.old.table_id ≡ self.now.turn.shared.table_id)
            × IsOpen place.old.me }
        requires hand { HasDesk L.machine L.ends place.old.me.0 desk.value }
        ensures own { (place.new.table_id ≡ place.old.table_id) × IsOpen place.new.me }
        ensures hand { HasDesk L.machine L.ends place.new.me.0 result.0.value }
        ensures same { (result.0.value.state ≡ desk.value.state)
            × (place.new.me.0.mine ≡ place.old.me.0.mine)
            × (place.new.me.0.seat ≡ place.old.me.0.seat)
            × (place.new.me.0.rounds ≡ place.old.me.0.rounds)
            × (place.old.me.0.limit ≤ place.new.me.0.limit) }
        ensures room { IfSome result.1 (λ n. n < place.new.me.0.limit) }
        ensures told { (v : Sight L.State) → IsIn L.machine L.ends v place.old.me.0 desk.value
            → IsIn L.machine L.ends v place.new.me.0 result.0.value }
    {
        let number = self.turn.shared.peek(TALLY) / 2;
        let held = &mut *desk;
        if number < held.journal.limit as u64 {
            return (desk, Some(number as u32));
        }
        if !raise_limit(&mut held.journal, number) {
            return (desk, None);
        }
        let desk = self.widen(place, desk);
        (desk, Some(number as u32))
    }

    // Whether a seat may keep a child of which there is no record.
    fn may_keep(&self, strays: bool) -> bool
        ensures { strays ≡ true → result ≡ false }
    {
        if strays {
            return false;
        }
        self.signs.seekers.load(Ordering::SeqCst) == 0
    }

    // One try to enter the end of the joinee, its join by `of` and the fork of that at one moment.
    // The seat takes the child, and keeps it where no joiner seeks one or waits for a number of
    // which there is no record.
    pub(crate) fn try_keep(
        &self,
        place: &mut Place<L>,
        desk: Box<Desk<L::Runner, L::AtJoin, L::End>>,
        lone: bool,
        joinee: u32,
        of: u32,
        child: &L::Runner,
    ) -> Tried<L::Runner, L::AtJoin, L::End>
        requires own { (place.old.table_id ≡ self.now.turn.shared.table_id)
            × IsOpen place.old.me }
        requires hand { HasDesk L.machine L.ends place.old.me.0 desk.value }
        requires free { desk.value.state ≡ All }
        requires mine { place.old.me.0.mine ≡ lone_list lone joinee }
        requires event { (l : L.State) × (forker : ℕ → L.State)
            × Owes L.machine L.ends place.old.me.0.seat joinee of l
            × (L.machine.next l ≡ Bears forker (L.machine.runs child.now)) }
        requires group { L.machine.runner_group child.now ≡ place.old.me.0.seat.group }
        ensures own { place.new.table_id ≡ place.old.table_id }
        ensures told { TriedSays L.machine L.ends place.old.me place.new.me desk.value joinee of
            child.now result }
    {
        let (mut desk, number) = self.open_number(place, desk);
        let Some(number) = number else {
            self.put_home_halted(place, desk);
            return Tried::Halted;
        };
        let held = &mut *desk;
        let kept = self.may_keep(held.strays);
        if !make_ready(held, number, kept) {
            self.put_home_halted(place, desk);
            return Tried::Halted;
        }
        plan_keep(&mut held.plan, joinee, of, number, lone, kept);
        let (mut desk, tally) = self.carry_fork(place, desk, number);
        if tally != 2 * number as u64 {
            return Tried::Missed(desk);
        }
        let last = &mut *desk;
        settle_value(last, joinee, lone);
        take_value(last, number, kept);
        note_keep(&mut last.journal, number, joinee, of);
        let limit = last.journal.limit as u32;
        self.put_home(place, desk);
        Tried::Made {
            number,
            kept,
            limit,
        }
    }
}
