//! What became of a try to fork in a turn.
use hub_core::Desk;

/// Of a try to fork and keep the child, by a seat with the turn.
pub enum Tried<R, A, E> {
    /// The number of the child, whether the seat keeps it, and the limit. The turn is given back.
    Made { number: u32, kept: bool, limit: u32 },
    /// Another seat made a round meanwhile. The value is in hand as before.
    Missed(Box<Desk<R, A, E>>),
    /// A halt was entered, and the turn is given back.
    Halted,
}
