//! The opening of a hub.
ghost use Rattle.std.specs.Prelude.{◌≡◌, ◌<◌, ◌≤◌, [], ◌∷◌, length, map, Some, None};
ghost use Rattle.std.specs.Prelude.{IfOk, IfErr, IfSome, vec_capacity};
ghost use Rattle.std.specs.Global.{Box};
ghost use Rattle.hub_core.specs.declared.status.Status.TheVariants.{Ready};
ghost use Rattle.hub_core.specs.declared.desk.DeskSlot.TheVariants.{Home};
ghost use Rattle.hub_core.specs.declared.state.HubState.TheVariants as state;
ghost use Rattle.hub_core.specs.Recorded.{IsReadyFirst};
ghost use Rattle.hub_core.specs.Tally.{sight, most_of, part_from};
ghost use Rattle.hub_core.specs.TallySteps.{first_sight};
ghost use Rattle.hub_core.specs.Views.{opens};
ghost use Rattle.turn_hub.specs.Seats.{first_of, AreOf, AreNew};
ghost use Rattle.turn_hub.specs.Opening.{IsFirstDesk};
ghost use Rattle.turn_hub.specs.Turns.{IsIdle};

use crate::hub::{Signs, TurnHub};
use crate::patience::Patience;
use crate::seat::{HubSeat, Place};
use atomic_table::{Badge, Refused, Table, TableRule};
use crossbeam_utils::CachePadded;
use hub_core::{
    Desk, DeskSlot, HubState, Journal, OneMore, Plan, Records, Revision, Round, Sight, append,
};
use std::alloc::Global;
use std::marker::PhantomData;

// The close has room for so many revisions from the first on.
const ROOM: usize = 64;

/// What a run begins with.
pub struct Opening<L: Revision> {
    first: L::Runner,
    seats: u64,
}

/// A table that keeps nothing. The view of its seat has the start of the run.
pub struct Anchored<L: Revision> {
    of: PhantomData<L>,
}

impl<L: Revision> TableRule<(), Sight<L::State>, Opening<L>> for Anchored<L> {
    ghost holds = { λ _ _. Unit {0} };

    ghost first = { λ key. sight (opens key.seats (Some (L.machine.runs key.first))
        (L.machine.runner_group key.first)) [] [] 0 };
}

// The start of a run, told by a badge.
fn anchor<L: Revision>(alloc: Global, opening: &Opening<L>) -> Option<Badge<Sight<L::State>>>
    ensures { IfSome result
        (λ b. first_sight b.views ≡ sight (opens opening.now.seats
        (Some (L.machine.runs opening.now.first))
        (L.machine.runner_group opening.now.first)) [] [] 0) }
{
    let opened = Table::<(), Sight<L::State>, Opening<L>, Anchored<L>, Global>::of_words(
        alloc,
        &[0],
        opening,
    );
    let Ok((_anchor, seat)) = opened else {
        return None;
    };
    Some(seat.into_badge())
}

// A journal with no entries, and with room.
fn first_journal<E>(alloc: Global) -> Option<Journal<E>>
    ensures { IfSome result (λ j. (j.entries.items ≡ []) × (0 < j.limit)) }
{
    let mut journal = Journal::new(alloc);
    if !journal.widen(ROOM) {
        journal.free();
        return None;
    }
    Some(journal)
}

// The value with which a hub opens. The runner comes back for want of memory.
fn first_desk<R, A, E>(alloc: Global, first: R) -> Result<Desk<R, A, E>, R>
    ensures ok { IfOk result (λ d. IsFirstDesk d first) }
    ensures err { IfErr result (λ r. r ≡ first) }
{
    let Some(plan) = Plan::new(alloc) else {
        return Err(first);
    };
    let Some(journal) = first_journal(alloc) else {
        return Err(first);
    };
    match Records::one(alloc, first) {
        Ok(records) => Ok(Desk {
            journal,
            records,
            state: HubState::All,
            lent: 0,
            strays: false,
            plan,
        }),
        Err(first) => {
            journal.free();
            Err(first)
        },
    }
}

// The runner of a hub that was not opened.
fn take_back<R, A, E>(desk: Desk<R, A, E>) -> R
    requires { IsReadyFirst desk.records.list.items }
    ensures { desk.records.list.items ≡ Some (Ready result) ∷ [] }
{
    let Desk {
        journal,
        records,
        ..
    } = desk;
    journal.free();
    records.into_first()
}

// The value in its box, as the one that the slot begins with. The runner comes back for want of
// memory.
fn home_of<R, A, E>(alloc: Global, desk: Desk<R, A, E>) -> Result<Vec<DeskSlot<R, A, E>>, R>
    requires { IsReadyFirst desk.records.list.items }
    ensures ok { IfOk result (λ hs. (b : Box (Desk R A E)) × (hs.items ≡ Home b ∷ [])
        × (b.value ≡ desk)) }
    ensures err { IfErr result (λ r. desk.records.list.items ≡ Some (Ready r) ∷ []) }
{
    let boxed = match Box::new(alloc, desk) {
        Ok(boxed) => boxed,
        Err(failed) => return Err(take_back(failed.value)),
    };
    let mut homes = Vec::new(alloc);
    match homes.push(DeskSlot::Home(boxed)) {
        Ok(()) => Ok(homes),
        Err(failed) => {
            homes.destroy_empty();
            Err(take_back(Box::into_inner(failed.value.into_home())))
        },
    }
}

impl<L: Revision> TurnHub<L> {
    // A hub with one seat, which has every part of the right to close, and with room for the lists of
    // so many seats.
    fn open_one(
        alloc: Global,
        first: L::Runner,
        seats: u64,
        lists: Vec<Vec<Round>>,
    ) -> Result<(TurnHub<L>, Place<L>), L::Runner>
        requires some { 0 < seats }
        requires room { (lists.items ≡ []) × (seats ≤ vec_capacity lists) }
        ensures own { IfOk result (λ r. (r.1.table_id ≡ r.0.turn.shared.table_id) × (r.1.me.1 ≡ [])
            × (r.1.me.0 ≡ first_sight r.0.turn.shared.key.views)) }
        ensures first { IfOk result (λ r. first_sight r.0.turn.shared.key.views
            ≡ sight (opens seats (Some (L.machine.runs first)) (L.machine.runner_group first))
            [] [] 0) }
        ensures err { IfErr result (λ r. r ≡ first) }
    {
        let opening = Opening { first, seats };
        let badge = anchor::<L>(alloc, &opening);
        let Opening { first, seats: _ } = opening;
        let Some(badge) = badge else {
            return Err(first);
        };
        let desk = first_desk(alloc, first)?;
        let mark = desk.records.queue.counted_mark();
        let homes = home_of(alloc, desk)?;
        match Table::new(
            alloc,
            &[0, 0, 0, 0, 0, 0, 0, 0, 0, 0, 0, 0, 0, 0, 0, 0, 2],
            homes,
            &badge,
        ) {
            Ok((turn, place)) => {
                let hub = TurnHub {
                    turn,
                    lists,
                    signs: CachePadded::new(Signs::new(mark)),
                };
                Ok((hub, place))
            },
            Err(Refused { mut slots }) => {
                let slot = slots.pop().unwrap();
                slots.destroy_empty();
                Err(take_back(Box::into_inner(slot.into_home())))
            },
        }
    }

    // A seat for another thread.
    fn another(&self, alloc: Global, place: &mut Place<L>) -> HubSeat<L>
        requires { (place.old.table_id ≡ self.now.turn.shared.table_id) × IsIdle place.old.me
            × (1 < place.old.me.0.seat.parts) }
        ensures own { (place.new.table_id ≡ place.old.table_id)
            × (place.new.me ≡ (most_of place.old.me.0, [])) }
        ensures new { (result.place.table_id ≡ place.old.table_id)
            × (result.place.me ≡ (part_from place.old.me.0, [])) }
    {
        seat_at(alloc, self.turn.shared.split_seat::<OneMore<L>>(place))
    }

    // As many seats as the one has parts.
    fn deal(
        &self,
        alloc: Global,
        place: Place<L>,
        seats: u32,
        list: Vec<HubSeat<L>>,
    ) -> Vec<HubSeat<L>>
        requires own { (place.table_id ≡ self.now.turn.shared.table_id) × IsIdle place.me
            × (place.me.0.seat.parts ≡ seats) }
        requires fresh { (place.me.0.seat.saw ≡ 0) × (place.me.0.seat.passes ≡ [])
            × (place.me.0.seat.halt ≡ state.All) }
        requires bare { (place.me.0.rounds ≡ []) × (place.me.0.mine ≡ []) }
        requires room { (list.items ≡ []) × (seats ≤ vec_capacity list) }
        ensures own { AreOf self.now.turn.shared.table_id (map (λ s. s.place) result.items) }
        ensures many { length result.items ≡ seats }
        ensures fresh { AreNew place.me.0.seat.start place.me.0.seat.group (map
            (λ s. s.place) result.items) }
    {
        let mut one = place;
        let mut list = list;
        for _ in 1..seats {
            let next = self.another(alloc, &mut one);
            append(&mut list, next);
        }
        append(&mut list, seat_at(alloc, one));
        list
    }

    /// A hub with its first revision, and so many seats, at least one. The runner comes back for
    /// want of memory.
    pub fn open(
        alloc: Global,
        first: L::Runner,
        seats: u32,
    ) -> Result<(TurnHub<L>, Vec<HubSeat<L>>), L::Runner>
        requires { 0 < seats }
        ensures own { IfOk result (λ r. AreOf r.0.turn.shared.table_id (map
            (λ s. s.place) r.1.items)) }
        ensures many { IfOk result (λ r. (length r.1.items ≡ seats)
            × ((first_of r.0.turn.shared.key.views).parts ≡ seats)) }
        ensures fresh { IfOk result
            (λ r. AreNew (Some (L.machine.runs first)) (L.machine.runner_group first)
            (map (λ s. s.place) r.1.items)) }
        ensures start { IfOk result (λ r. (first_of r.0.turn.shared.key.views).start
            ≡ Some (L.machine.runs first)) }
        ensures group { IfOk result (λ r. (first_of r.0.turn.shared.key.views).group
            ≡ L.machine.runner_group first) }
        ensures err { IfErr result (λ r. r ≡ first) }
    {
        let Ok(list) = Vec::with_capacity(alloc, seats as usize) else {
            return Err(first);
        };
        let Ok(lists) = Vec::with_capacity(alloc, seats as usize) else {
            list.destroy_empty();
            return Err(first);
        };
        match TurnHub::open_one(alloc, first, seats as u64, lists) {
            Ok((hub, place)) => {
                let list = hub.deal(alloc, place, seats, list);
                Ok((hub, list))
            },
            Err(first) => {
                list.destroy_empty();
                Err(first)
            },
        }
    }
}

// A seat that made no round, at this place.
fn seat_at<L: Revision>(alloc: Global, place: Place<L>) -> HubSeat<L>
    requires idle { (place.me.0.seat.has ≡ 0) × (place.me.1 ≡ []) × (place.me.0.seat.parts ≡ 1) }
    requires bare { (place.me.0.rounds ≡ []) × (place.me.0.mine ≡ []) }
    ensures { result.place ≡ place }
{
    HubSeat {
        place,
        patience: Patience::new(),
        rounds: Vec::new(alloc),
        kept: None,
        limit: 0,
        seen: 0,
    }
}
