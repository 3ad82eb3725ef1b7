//! Which fun each application of a program means, and the rules on funs.
#![tactic(auto)]

mod expand;
mod uses;

pub use expand::{expand_funs, first, precedes};
