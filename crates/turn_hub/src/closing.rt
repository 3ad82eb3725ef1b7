//! The close of a hub.
ghost use Rattle.std.specs.Prelude.{◌≡◌, ◌<◌, ◌≤◌, ℕ, List, [], length, map, vec_capacity};
ghost use Rattle.hub_core.specs.Passes.{named, AreStartsOf};
ghost use Rattle.hub_core.specs.HubMachine.{numbered};
ghost use Rattle.hub_core.specs.Tally.{both_of};
ghost use Rattle.hub_core.specs.Woven.{triples};
ghost use Rattle.hub_core.specs.Ordered.{all_rounds};
ghost use Rattle.turn_hub.specs.Closing.{IsClosed, IsKeptRun};
ghost use Rattle.turn_hub.specs.Seats.{first_of, AreOf, AreBehind};
ghost use Rattle.turn_hub.specs.Turns.{IsIdle};
ghost use Rattle.turn_hub.specs.Closing.{saw_of, halt_known, held_by, ClosedDesk};

mod order;
mod retyped;

use crate::hub::{TALLY, TurnHub};
use crate::seat::{HubSeat, Place};
use atomic_table::{Badge, Table};
use hub_core::{
    Desk, DeskSlot, HubState, Kept, Ordered, Revision, Round, Seated, Sight, TallyRule, Tell,
    append,
};
pub use order::HubSchedule;
use std::alloc::Global;

// The table of a hub.
type HubTable<L> = Table<
    DeskSlot<<L as Revision>::Runner, <L as Revision>::AtJoin, <L as Revision>::End>,
    Sight<<L as Revision>::State>,
    Badge<Sight<<L as Revision>::State>>,
    TallyRule<L>,
    Global,
>;

/// A run that a hub kept: the schedule is legal from the start that the witness tells, and the
/// forkers and the ends are those of the world that it leads to. `close` makes one, and `as_of`
/// makes it one of another machine that does the same. It also tells what its snapshots belong to.
#[derive(Drop)]
pub struct HubRun<L: Revision> {
    schedule: Vec<u32>,
    ends: Vec<Option<L::End>>,
    forkers: Vec<u32>,
    state: HubState,
    witness: Badge<Sight<L::State>>,
    ghost kept: { ∥ IsKeptRun (numbered L.machine) L.ends (first_of witness.views).start
        state schedule.items forkers.items ends.items ∥₁ },
}

impl<L: Revision> HubRun<L> {
    /// The numbers of the revisions in the order of their legs.
    pub fn schedule(&self) -> &[u32]
        ensures { result.now ≡ self.now.schedule.items }
    {
        self.schedule.as_slice()
    }

    /// By number, the ends that were handed in, of the revisions that nobody joined.
    pub fn ends(&self) -> &[Option<L::End>]
        ensures { result.now ≡ self.now.ends.items }
    {
        self.ends.as_slice()
    }

    /// By number, the revision that forked it, and 0 for the first.
    pub fn forkers(&self) -> &[u32]
        ensures { result.now ≡ self.now.forkers.items }
    {
        self.forkers.as_slice()
    }

    /// Which halt was entered first, if any.
    pub fn state(&self) -> HubState
        ensures { result ≡ self.now.state }
    {
        self.state
    }
}

/// A run, and the runners and joiners that a halt left.
pub struct HubEnd<L: Revision> {
    pub run: HubRun<L>,
    pub kept: Vec<Kept<L::Runner, L::AtJoin>>,
}

// Takes in another seat.
fn gather<L: Revision>(turn: &HubTable<L>, place: &mut Place<L>, other: Place<L>)
    requires own { (place.old.table_id ≡ turn.now.shared.table_id) × IsIdle place.old.me
        × (other.table_id ≡ turn.now.shared.table_id) × IsIdle other.me }
    requires sized { turn.now.shared.table_id.words ≡ 17 }
    ensures { (place.new.table_id ≡ place.old.table_id)
        × (place.new.me ≡ (both_of place.old.me.0 other.me.0, [])) }
{
    turn.shared.join_seat::<Seated<L>>(place, other);
}

// All seats in one, and the rounds of each.
fn gather_all<L: Revision>(
    turn: &HubTable<L>,
    lists: &mut Vec<Vec<Round>>,
    seats: Vec<HubSeat<L>>,
) -> Place<L>
    requires own { AreOf turn.now.shared.table_id (map (λ s. s.place) seats.items) }
    requires sized { turn.now.shared.table_id.words ≡ 17 }
    requires some { 0 < length seats.items }
    requires room { (lists.old.items ≡ []) × (length seats.items ≤ vec_capacity lists.old) }
    ensures own { (result.table_id ≡ turn.now.shared.table_id) × IsIdle result.me }
    ensures parts { result.me.0.seat.parts ≡ length seats.items }
    ensures saw { saw_of (map (λ s. s.place) seats.items) ≡ 1 → result.me.0.seat.saw ≡ 1 }
    ensures halt { result.me.0.seat.halt ≡ halt_known (map (λ s. s.place) seats.items) }
    ensures behind { (log : List ℕ) → AreStartsOf log result.me.0.seat.turns
        → AreBehind log (map (λ s. s.place) seats.items) }
    ensures passes { (n : ℕ) → named n result.me.0.seat.passes ≡ held_by n (map
        (λ s. s.place) seats.items) }
    ensures rounds { all_rounds (map (λ l. triples l.items) lists.new.items)
        ≡ result.me.0.rounds }
{
    let mut rest = seats;
    let first = rest.pop().unwrap();
    let HubSeat { place, rounds, .. } = first;
    append(lists, rounds);
    let mut all = place;
    let count = rest.len();
    for _ in 0..count {
        let seat = rest.pop().unwrap();
        let HubSeat { place, rounds, .. } = seat;
        append(lists, rounds);
        gather::<L>(turn, &mut all, place);
    }
    rest.destroy_empty();
    all
}

// A badge that has the start of the run.
fn tell<L: Revision>(turn: &HubTable<L>, place: &mut Place<L>) -> Badge<Sight<L::State>>
    requires own { (place.old.table_id ≡ turn.now.shared.table_id) × IsIdle place.old.me }
    requires sized { turn.now.shared.table_id.words ≡ 17 }
    ensures own { (place.new.table_id ≡ place.old.table_id) × (place.new.me ≡ place.old.me) }
    ensures told { (first_of result.views).start ≡ place.old.me.0.seat.start }
    ensures group { (first_of result.views).group ≡ place.old.me.0.seat.group }
{
    turn.shared.split_seat::<Tell<L>>(place).into_badge()
}

// What the slot has, and how many revisions there are, once every part of the right to close is
// back.
fn take_out<L: Revision>(
    turn: HubTable<L>,
    place: Place<L>,
) -> (Desk<L::Runner, L::AtJoin, L::End>, usize)
    requires own { (place.table_id ≡ turn.shared.table_id) × IsIdle place.me }
    requires sized { (turn.shared.table_id.words ≡ 17) × (turn.shared.table_id.slots ≡ 1) }
    requires every { place.me.0.seat.parts ≡ (first_of turn.shared.key.views).parts }
    requires over { place.me.0.seat.saw ≡ 1 }
    ensures { ClosedDesk L.machine L.ends (first_of turn.shared.key.views) place.me.0 result.0
        result.1 }
{
    let mut closed = turn.close_with(place);
    let value = closed.take(0);
    let tally = closed.word(TALLY);
    closed.free();
    (Box::into_inner(value.into_home()), (tally / 2) as usize)
}

impl<L: Revision> TurnHub<L> {
    /// What the hub has. All seats that `open` made are handed in, and one of them was answered
    /// Finished or Halted, or entered a halt. The schedule of the run begins with each that one of
    /// the seats left at the end of a turn, with its own entries: it is the hub's own.
    pub fn close(self, seats: Vec<HubSeat<L>>) -> HubEnd<L>
        requires own { AreOf self.turn.shared.table_id (map (λ s. s.place) seats.items) }
        requires every { length seats.items ≡ (first_of self.turn.shared.key.views).parts }
        requires some { 0 < length seats.items }
        requires over { saw_of (map (λ s. s.place) seats.items) ≡ 1 }
        ensures state { result.run.state ≡ halt_known (map (λ s. s.place) seats.items) }
        ensures run { IsClosed L.machine L.ends (first_of self.turn.shared.key.views)
            result.run.state result.run.schedule.items result.run.forkers.items
            result.run.ends.items
            result.kept.items (λ n. held_by n (map (λ s. s.place) seats.items)) }
        ensures behind { AreBehind result.run.schedule.items (map (λ s. s.place) seats.items) }
        ensures start { (first_of result.run.witness.views).start
            ≡ (first_of self.turn.shared.key.views).start }
        ensures group { (first_of result.run.witness.views).group
            ≡ (first_of self.turn.shared.key.views).group }
    {
        let TurnHub {
            turn,
            lists,
            signs: _,
        } = self;
        let mut lists = lists;
        let mut all = gather_all::<L>(&turn, &mut lists, seats);
        let witness = tell::<L>(&turn, &mut all);
        let (desk, born) = take_out::<L>(turn, all);
        let Desk {
            journal,
            records,
            state,
            ..
        } = desk;
        let Ordered {
            schedule,
            forkers,
            ends,
        } = journal.order(born, lists.as_slice());
        let (ends, kept) = records.part(born, ends);
        HubEnd {
            run: HubRun {
                schedule,
                ends,
                forkers,
                state,
                witness,
            },
            kept,
        }
    }
}
