//! The steps of one revision: what it does next, and what a join leaves.
#![tactic(auto)]

mod cells;
mod choices;
mod expressions;
mod forks;
mod forms;
mod joins;
mod local;
mod own;
mod print;
mod step;

pub use local::Local;
