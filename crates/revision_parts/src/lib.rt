//! The part of a trace that a revision has, by its local state.
#![tactic(auto)]

mod parts;

pub use parts::part_of;
