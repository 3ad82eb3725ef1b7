//! What comes first in the turn in which a seat hands a revision in.

/// What comes first, and what the seat does with it.
#[derive(Clone, Copy)]
pub enum Coming {
    /// Nothing is ready.
    Nobody,
    /// The seat takes this revision.
    Takes(u32),
    /// The seat takes this joiner, which takes in the end of its joinee.
    Claims { number: u32, joinee: u32 },
    /// The seat takes this joiner, whose joinee was joined before.
    Stops(u32),
}
