//! What lies in the slot of a hub's table.

use crate::deed::Plan;
use crate::journal::Journal;
use crate::records::Records;
use crate::state::HubState;

/// The hub, of revisions with runners `R`, joiners `A` and end values `E`.
#[derive(Drop)]
pub struct Desk<R, A, E> {
    pub journal: Journal<E>,
    pub records: Records<R, A, E>,
    pub state: HubState,
    /// How many children seats keep, of which there is no record.
    pub lent: u32,
    /// Whether a joiner waits for a number of which there is no record.
    pub strays: bool,
    /// What the seat with the turn does at its next step.
    pub plan: Plan,
}

/// What the slot holds: the value, or nothing while a seat with the turn changes it. The value lies
/// in a box, so that no step moves more than a pointer.
#[derive(Drop)]
pub enum DeskSlot<R, A, E> {
    /// The value.
    Home(Box<Desk<R, A, E>>),
    /// The seat with the turn has it.
    Away,
    /// What a round announces: its joinee and its forker. No slot holds this.
    Told(u32, u32),
}
