//! Verified code as a machine of revisions: what a leg is, the machine by paths and the world by
//! numbers, and the laws that hold of both for every verified code, input, share and fuel. Each law
//! is an empty function.
#![tactic(auto)]

mod laws;
mod rows;
mod worlds;

pub use laws::{agreement_laws, condition_laws, end_laws, leg_laws, run_laws};
pub use rows::worked_codes;
pub use worlds::{kept_laws, schedule_laws, standing_laws, world_laws};
