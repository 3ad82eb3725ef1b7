//! The code of expressions, funs and merges has their values; where the code of statements stands,
//! and when a state of code stands where one of the calculus does.
//!
//! Each law is an empty function.
#![tactic(auto)]

mod expressions;
mod places;
mod programs;

pub use expressions::{arguments_law, block_laws, expression_law};
pub use places::block_law;
pub use programs::program_laws;
