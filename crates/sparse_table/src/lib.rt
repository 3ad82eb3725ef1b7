//! A table of atomic words in parts, of which the memory is written when a part is first wanted. It
//! stands on atomic words under one rule, side by side in memory that is not written before it is
//! wanted (`words`, `span`).
#![tactic(auto)]

mod closed;
mod heads;
mod inner;
mod joining;
mod making;
mod parts;
mod plays;
mod rule;
mod seats;
mod span;
mod table;
mod word_steps;
mod words;
mod zeros;

pub use closed::Closed;
pub use rule::{Doing, PartRule, Shape};
pub use table::{Seat, Table};

#[cfg(test)]
mod tests;
