//! What became of a try to fork in a turn, where the child goes to the hub.
use hub_core::Desk;

/// Of a try to fork, by a seat with the turn.
pub enum Forking<R, A, E> {
    /// The number of the child. The turn is given back.
    Made(u32),
    /// Another seat made a round meanwhile. The value is in hand as before.
    Missed(Box<Desk<R, A, E>>, R),
    /// A halt was entered, and the turn is given back.
    Halted(R),
}
