//! Verified code, run by threads: its outcome and its schedule.
#![tactic(auto)]

mod births;
mod ends;
mod laws;
mod outcomes;
mod ran;
mod running;

pub use births::births_of;
pub use ends::owned_ends;
pub use laws::birth_law;
pub use outcomes::outcome_of_run;
pub use ran::Ran;
pub use running::run_threads;
