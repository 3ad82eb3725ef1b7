//! What a seat does at one moment of its turn.
ghost use Rattle.std.specs.Prelude.{◌≤◌, vec_capacity};

/// A deed about a revision.
#[derive(Clone, Copy)]
pub enum Deed {
    /// An entry of it, which the seat has.
    Commits(u32),
    /// The seat has it no more.
    HandsIn(u32),
    /// The seat has it, which no seat had.
    Draws(u32),
}

/// What the seat with the turn does at its next step. A revision that leaves is a child that it kept,
/// and one that it keeps is the child of the fork that is the last entry.
#[derive(Drop)]
pub struct Plan {
    pub deeds: Vec<Deed>,
    pub leaves: Option<u32>,
    pub keeps: Option<u32>,
    /// The forker, where the last entry is a fork.
    pub forks: u32,
    ghost room: { 5 ≤ vec_capacity deeds },
}
