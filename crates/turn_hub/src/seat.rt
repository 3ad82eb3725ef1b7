//! A thread's seat at a hub.
ghost use Rattle.std.specs.Prelude.{◌≡◌, ◌≤◌, [], option_to_list};
ghost use Rattle.hub_core.specs.Woven.{triples};

use crate::patience::Patience;
use atomic_table::Seat;
use hub_core::{DeskSlot, Revision, Round, Sight};

/// A seat at the table of a hub.
pub type Place<L> = Seat<
    DeskSlot<<L as Revision>::Runner, <L as Revision>::AtJoin, <L as Revision>::End>,
    Sight<<L as Revision>::State>,
>;

/// A thread's right to take part in a hub. It has not the turn between two calls.
#[derive(Drop)]
pub struct HubSeat<L: Revision> {
    pub(crate) place: Place<L>,
    pub(crate) patience: Patience,
    // The rounds that it made without a turn.
    pub(crate) rounds: Vec<Round>,
    // The child that it keeps, of which there is no record.
    pub(crate) kept: Option<u32>,
    // The close has room for all numbers below this one.
    pub(crate) limit: u32,
    // The tally as it was last seen. No clause says what it is.
    pub(crate) seen: u64,
    ghost idle: { (place.me.0.seat.has ≡ 0) × (place.me.1 ≡ [])
        × (place.me.0.seat.parts ≡ 1) },
    ghost made: { triples rounds.items ≡ place.me.0.rounds },
    ghost mine: { place.me.0.mine ≡ option_to_list kept },
    ghost room: { limit ≤ place.me.0.limit },
}
