//! The code of a program's statements does what they do, it joins as the calculus does, each legal
//! schedule of it agrees with a run of the calculus, and its outcome is the program's.
//!
//! Each law is an empty function.
#![tactic(auto)]

mod at_joins;
mod completion;
mod rule;
mod simulation;
mod statements;

pub use at_joins::{join_law, merge_law};
pub use completion::{completion_laws, outcome_law};
pub use rule::join_rule;
pub use simulation::{leg_law, schedule_laws, simulation_laws};
pub use statements::{joiner_law, left_side_law, reading_law, start_law, step_law};
