//! Code as text.
#![tactic(auto)]

mod listing;

pub use listing::disassemble;
