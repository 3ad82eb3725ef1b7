//! The hub: the turn is taken and given back, and plans are carried out.
ghost use Rattle.std.specs.Prelude.{◌≡◌, ◌≢◌, ◌<◌, ◌≤◌, ◌+◌, ◌*◌, ℕ, [], ◌∷◌, true, false, Some, None};
ghost use Rattle.std.specs.Prelude.{vec_capacity};
ghost use Rattle.std.specs.Global.{Box};
ghost use Rattle.hub_core.specs.TallySteps.{first_sight};

use crate::patience::{Patience, WAITS, pause};
use crate::seat::Place;
use atomic_table::{Badge, Table};
use crossbeam_utils::CachePadded;
use hub_core::{
    CarryOut, Desk, DeskSlot, Fork, GiveTurn, HaltNoMemory, HaltTwice, PassTurn, Revision, Round,
    Sight, TakeTurn, TallyRule, Widen,
};
use std::alloc::Global;
use std::sync::Wait;
use std::sync::atomic::{AtomicU64, Ordering};

/// The word of the turn.
const TURN: usize = 0;

/// The word that counts the revisions. It is written without the turn, so it lies on a cache line
/// of its own.
pub(crate) const TALLY: usize = 16;

/// What threads look at that have not the turn. It can be written in any turn, and what lies beside
/// it in a hub is only read, so it has a cache line of its own.
#[derive(Drop)]
pub struct Signs {
    // How many threads sleep until the turn is given back, or are about to.
    pub(crate) sleepers: AtomicU64,
    // How many joiners wait for a child that a seat keeps. While there are any, rounds go by the turn.
    pub(crate) seekers: AtomicU64,
    /// 0 where no revision was ready when the turn was last given back, and else a mark of that
    /// which came first and of how many were ready, which `marked` of `hub_core` reads. It is for a
    /// thread that asks whether to look: `take` alone tells.
    pub mark: AtomicU64,
}

impl Signs {
    /// Nobody sleeps or seeks, and this is the mark.
    pub(crate) fn new(mark: u64) -> Signs {
        Signs {
            sleepers: AtomicU64::new(0),
            seekers: AtomicU64::new(0),
            mark: AtomicU64::new(mark),
        }
    }
}

/// A hub, whose revisions the threads take, run and hand back.
pub struct TurnHub<L: Revision> {
    pub(crate) turn: Table<
        DeskSlot<L::Runner, L::AtJoin, L::End>,
        Sight<L::State>,
        Badge<Sight<L::State>>,
        TallyRule<L>,
        Global,
    >,
    // Room for the lists of the rounds of all seats.
    pub(crate) lists: Vec<Vec<Round>>,
    /// What threads look at without the turn. No contract sees what they have.
    pub signs: CachePadded<Signs>,
    ghost sized: { (turn.shared.table_id.words ≡ 17) × (turn.shared.table_id.slots ≡ 1) },
    ghost room: { (lists.items ≡ [])
        × ((first_sight turn.shared.key.views).seat.parts ≤ vec_capacity lists) },
}

impl<L: Revision> TurnHub<L> {
    ghost use Rattle.hub_core.specs.declared.state.HubState.TheVariants as state;
    ghost use Rattle.hub_core.specs.declared.desk.DeskSlot.TheVariants.{Home, Away};
    ghost use Rattle.hub_core.specs.Tally.{HasDesk, gives_back, lets_pass, makes_room};
    ghost use Rattle.turn_hub.specs.Turns.{IsIdle, IsOpen, IsTaken, IsIn};
    ghost use Rattle.turn_hub.specs.Plans.{CanEnter, CanHalt, IsEntered, IsShut};
    ghost use Rattle.turn_hub.specs.Joinings.{IsShutAt};

    // One try for the turn.
    fn take_turn(&self, place: &mut Place<L>) -> bool
        requires { (place.old.table_id ≡ self.now.turn.shared.table_id) × IsIdle place.old.me }
        ensures own { place.new.table_id ≡ place.old.table_id }
        ensures took { result ≡ true → IsTaken L.machine L.ends place.old.me place.new.me }
        ensures missed { result ≡ false → place.new.me ≡ place.old.me }
    {
        self.turn
            .shared
            .compare_exchange::<TakeTurn<L>>(place, TURN, 0, 1)
            == 0
    }

    // One look, and a try where the turn is free.
    fn look_for_turn(&self, place: &mut Place<L>) -> bool
        requires { (place.old.table_id ≡ self.now.turn.shared.table_id) × IsIdle place.old.me }
        ensures own { place.new.table_id ≡ place.old.table_id }
        ensures took { result ≡ true → IsTaken L.machine L.ends place.old.me place.new.me }
        ensures missed { result ≡ false → place.new.me ≡ place.old.me }
    {
        self.turn.shared.peek(TURN) == 0 && self.take_turn(place)
    }

    // Looks after this wait and each behind it. A thread that finds the turn taken does not write,
    // and looks more and more seldom, so that it does not delay who has it: a thread that takes the
    // turn again soon finds what lies in the slot in its cache.
    fn keep_looking(&self, place: &mut Place<L>, first: u32) -> bool
        requires { (place.old.table_id ≡ self.now.turn.shared.table_id) × IsIdle place.old.me }
        ensures own { place.new.table_id ≡ place.old.table_id }
        ensures took { result ≡ true → IsTaken L.machine L.ends place.old.me place.new.me }
        ensures missed { result ≡ false → place.new.me ≡ place.old.me }
    {
        for number in first..WAITS {
            pause(number);
            if self.look_for_turn(place) {
                return true;
            }
        }
        false
    }

    // Some tries for the turn.
    fn try_turn(&self, place: &mut Place<L>, patience: &mut Patience) -> bool
        requires { (place.old.table_id ≡ self.now.turn.shared.table_id) × IsIdle place.old.me }
        ensures own { place.new.table_id ≡ place.old.table_id }
        ensures took { result ≡ true → IsTaken L.machine L.ends place.old.me place.new.me }
        ensures missed { result ≡ false → place.new.me ≡ place.old.me }
    {
        if self.look_for_turn(place) {
            patience.found_free();
            return true;
        }
        patience.found_taken();
        self.keep_looking(place, patience.first_wait())
    }

    // Sleeps while another seat has the turn. It may return for no reason. No wake is lost: who
    // sleeps counts itself and then sleeps only if the turn is still taken, and who gives it back
    // stores that before it looks at the count. Who was woken and finds the turn taken again
    // counts itself again, and is seen by the seat that has it.
    fn sleep<W: Wait>(&self, rt: &W) {
        self.signs.sleepers.fetch_add(1, Ordering::SeqCst);
        self.turn.shared.park(rt, TURN, 1);
        self.signs.sleepers.fetch_sub(1, Ordering::SeqCst);
    }

    // Waits for the turn, whose value is still in the slot.
    fn wait_turn<W: Wait>(&self, rt: &W, place: &mut Place<L>, patience: &mut Patience)
        requires { (place.old.table_id ≡ self.now.turn.shared.table_id) × IsIdle place.old.me }
        ensures own { place.new.table_id ≡ place.old.table_id }
        ensures took { IsTaken L.machine L.ends place.old.me place.new.me }
    {
        for _ in rt.forever() {
            if self.try_turn(place, patience) {
                return;
            }
            self.sleep(rt);
        }
        unreachable!()
    }

    // Waits for the turn. The value is away until `put_home`.
    pub(crate) fn enter<W: Wait>(
        &self,
        rt: &W,
        place: &mut Place<L>,
        patience: &mut Patience,
    ) -> Box<Desk<L::Runner, L::AtJoin, L::End>>
        requires { (place.old.table_id ≡ self.now.turn.shared.table_id) × IsIdle place.old.me }
        ensures own { (place.new.table_id ≡ place.old.table_id) × IsOpen place.new.me }
        ensures told { IsIn L.machine L.ends place.old.me.0 place.new.me.0 result.value }
        ensures mine { place.new.me.0.mine ≡ place.old.me.0.mine }
    {
        self.wait_turn(rt, place, patience);
        self.take_out_desk(place)
    }

    // The value that lies in the slot, which is away from then on.
    fn take_out_desk(&self, place: &mut Place<L>) -> Box<Desk<L::Runner, L::AtJoin, L::End>>
        requires own { place.old.table_id ≡ self.now.turn.shared.table_id }
        requires home { (box : Box (Desk L.Runner L.AtJoin L.End))
            × (place.old.me.1 ≡ (0, Home box) ∷ []) }
        ensures own { (place.new.table_id ≡ place.old.table_id) × IsOpen place.new.me }
        ensures view { place.new.me.0 ≡ place.old.me.0 }
        ensures slot { place.old.me.1 ≡ (0, Home result) ∷ [] }
    {
        self.turn
            .shared
            .exchange(place, 0, DeskSlot::Away)
            .into_home()
    }

    // The value lies in the slot again. No other thread looks at it before the turn is given back.
    fn put_in_desk(&self, place: &mut Place<L>, desk: Box<Desk<L::Runner, L::AtJoin, L::End>>)
        requires own { (place.old.table_id ≡ self.now.turn.shared.table_id)
            × IsOpen place.old.me }
        ensures own { place.new.table_id ≡ place.old.table_id }
        ensures after { place.new.me ≡ (place.old.me.0, (0, Home desk) ∷ []) }
    {
        self.turn
            .shared
            .exchange(place, 0, DeskSlot::Home(desk))
            .spend();
    }

    // Only a seat with the turn calls this, so nothing is written in between.
    fn put_mark(&self, mark: u64) {
        if self.signs.mark.load(Ordering::SeqCst) != mark {
            self.signs.mark.store(mark, Ordering::SeqCst);
        }
    }

    // Gives the turn back.
    pub(crate) fn put_home(
        &self,
        place: &mut Place<L>,
        desk: Box<Desk<L::Runner, L::AtJoin, L::End>>,
    )
        requires own { (place.old.table_id ≡ self.now.turn.shared.table_id)
            × IsOpen place.old.me }
        requires hand { HasDesk L.machine L.ends place.old.me.0 desk.value }
        ensures own { place.new.table_id ≡ place.old.table_id }
        ensures rests { place.new.me ≡ (gives_back place.old.me.0, []) }
    {
        self.put_mark(desk.records.queue.counted_mark());
        self.put_in_desk(place, desk);
        self.give(place);
        self.wake_sleeper();
    }

    fn wake_sleeper(&self) {
        if self.signs.sleepers.load(Ordering::SeqCst) > 0 {
            self.turn.shared.wake_one(TURN);
        }
    }

    fn give(&self, place: &mut Place<L>)
        requires own { place.old.table_id ≡ self.now.turn.shared.table_id }
        requires hand { (box : Box (Desk L.Runner L.AtJoin L.End))
            × HasDesk L.machine L.ends place.old.me.0 box.value
            × (place.old.me.1 ≡ (0, Home box) ∷ []) }
        ensures own { place.new.table_id ≡ place.old.table_id }
        ensures rests { place.new.me ≡ (gives_back place.old.me.0, []) }
    {
        self.turn.shared.store::<GiveTurn<L>>(place, TURN, 0);
    }

    // Gives the turn back as if there had been none: no revision is handed in or taken.
    pub(crate) fn pass_home(
        &self,
        place: &mut Place<L>,
        desk: Box<Desk<L::Runner, L::AtJoin, L::End>>,
    )
        requires own { (place.old.table_id ≡ self.now.turn.shared.table_id)
            × IsOpen place.old.me }
        requires hand { HasDesk L.machine L.ends place.old.me.0 desk.value }
        ensures own { place.new.table_id ≡ place.old.table_id }
        ensures rests { place.new.me ≡ (lets_pass place.old.me.0, []) }
    {
        self.put_in_desk(place, desk);
        self.pass(place);
        self.wake_sleeper();
    }

    fn pass(&self, place: &mut Place<L>)
        requires own { place.old.table_id ≡ self.now.turn.shared.table_id }
        requires hand { (box : Box (Desk L.Runner L.AtJoin L.End))
            × HasDesk L.machine L.ends place.old.me.0 box.value
            × (place.old.me.1 ≡ (0, Home box) ∷ []) }
        ensures own { place.new.table_id ≡ place.old.table_id }
        ensures rests { place.new.me ≡ (lets_pass place.old.me.0, []) }
    {
        self.turn.shared.store::<PassTurn<L>>(place, TURN, 0);
    }

    // The plan of the value is carried out, at one moment: the tally then.
    pub(crate) fn carry_out(
        &self,
        place: &mut Place<L>,
        desk: Box<Desk<L::Runner, L::AtJoin, L::End>>,
    ) -> (Box<Desk<L::Runner, L::AtJoin, L::End>>, u64)
        requires own { (place.old.table_id ≡ self.now.turn.shared.table_id)
            × IsOpen place.old.me }
        requires can { CanEnter L.machine L.ends place.old.me.0 desk.value None (λ _. Unit {0}) }
        ensures own { (place.new.table_id ≡ place.old.table_id) × IsOpen place.new.me }
        ensures same { result.0 ≡ desk }
        ensures entered { IsEntered L.machine L.ends place.old.me.0 place.new.me.0 desk.value None
            result.1 }
    {
        self.put_in_desk(place, desk);
        let count = self.turn.shared.load::<CarryOut<L>>(place, TALLY);
        (self.take_out_desk(place), count)
    }

    // The plan of the value is carried out, and want of memory is entered, the first halt.
    pub(crate) fn halt_no_memory(
        &self,
        place: &mut Place<L>,
        desk: Box<Desk<L::Runner, L::AtJoin, L::End>>,
    ) -> Box<Desk<L::Runner, L::AtJoin, L::End>>
        requires own { (place.old.table_id ≡ self.now.turn.shared.table_id)
            × IsOpen place.old.me }
        requires can { CanHalt L.machine L.ends state.NoMemory place.old.me.0 desk.value }
        ensures own { (place.new.table_id ≡ place.old.table_id) × IsOpen place.new.me }
        ensures same { result ≡ desk }
        ensures shut { IsShut L.machine L.ends state.NoMemory place.old.me.0 place.new.me.0
            desk.value }
    {
        self.put_in_desk(place, desk);
        self.turn
            .shared
            .fetch_add::<HaltNoMemory<L>>(place, TALLY, 1);
        self.take_out_desk(place)
    }

    // The plan of the value is carried out, and Twice is entered, the first halt, behind its
    // entries: the tally then.
    pub(crate) fn halt_twice(
        &self,
        place: &mut Place<L>,
        desk: Box<Desk<L::Runner, L::AtJoin, L::End>>,
    ) -> (Box<Desk<L::Runner, L::AtJoin, L::End>>, u64)
        requires own { (place.old.table_id ≡ self.now.turn.shared.table_id)
            × IsOpen place.old.me }
        requires can { CanHalt L.machine L.ends state.Twice place.old.me.0 desk.value }
        ensures own { (place.new.table_id ≡ place.old.table_id) × IsOpen place.new.me }
        ensures same { result.0 ≡ desk }
        ensures shut { IsShutAt L.machine L.ends state.Twice place.old.me.0 place.new.me.0
            desk.value result.1 }
    {
        self.put_in_desk(place, desk);
        let count = self.turn.shared.fetch_add::<HaltTwice<L>>(place, TALLY, 1);
        (self.take_out_desk(place), count)
    }

    // The plan of the value is carried out, at one moment, where there are so many revisions then.
    // Its last entry is a fork. The tally is as it was found.
    pub(crate) fn carry_fork(
        &self,
        place: &mut Place<L>,
        desk: Box<Desk<L::Runner, L::AtJoin, L::End>>,
        number: u32,
    ) -> (Box<Desk<L::Runner, L::AtJoin, L::End>>, u64)
        requires own { (place.old.table_id ≡ self.now.turn.shared.table_id)
            × IsOpen place.old.me }
        requires can { CanEnter L.machine L.ends place.old.me.0 desk.value
            (Some desk.value.plan.forks) (λ i. i ≡ number) }
        requires room { number < place.old.me.0.limit }
        ensures own { (place.new.table_id ≡ place.old.table_id) × IsOpen place.new.me }
        ensures same { result.0 ≡ desk }
        ensures entered { result.1 ≡ 2 * number
            → IsEntered L.machine L.ends place.old.me.0 place.new.me.0 desk.value
            (Some desk.value.plan.forks) result.1 }
        ensures missed { result.1 ≢ 2 * number → place.new.me.0 ≡ place.old.me.0 }
    {
        self.put_in_desk(place, desk);
        let count = 2 * number as u64;
        let found = self
            .turn
            .shared
            .compare_exchange::<Fork<L>>(place, TALLY, count, count + 2);
        (self.take_out_desk(place), found)
    }

    // The close has room for all numbers below the limit of the value.
    pub(crate) fn widen(
        &self,
        place: &mut Place<L>,
        desk: Box<Desk<L::Runner, L::AtJoin, L::End>>,
    ) -> Box<Desk<L::Runner, L::AtJoin, L::End>>
        requires own { (place.old.table_id ≡ self.now.turn.shared.table_id)
            × IsOpen place.old.me }
        requires more { (place.old.me.0.seat.has ≡ 1)
            × (place.old.me.0.limit ≤ desk.value.journal.limit) }
        ensures own { (place.new.table_id ≡ place.old.table_id) × IsOpen place.new.me }
        ensures same { result ≡ desk }
        ensures view { place.new.me.0 ≡ makes_room desk.value.journal.limit place.old.me.0 }
    {
        self.put_in_desk(place, desk);
        self.turn.shared.load::<Widen<L>>(place, TURN);
        self.take_out_desk(place)
    }
}
