//! What a step of code comes to, and what code reads; each verified code has one outcome; whose a
//! trap is; what holds of each world of code that a legal schedule reaches; and what `main` has
//! printed there.
//!
//! Each law is an empty function.
#![tactic(auto)]

mod code_outcome;
mod laws;
mod reads;
mod run;
mod steps;
mod texts;
mod theory;
mod traps;

pub use code_outcome::code_outcome_law;
pub use laws::reached_laws;
pub use reads::{leg_read_law, read_laws, worked_reads};
pub use run::VerifiedRun;
pub use steps::{step_law, text_law};
pub use texts::text_laws;
pub use theory::starts;
pub use traps::trap_laws;
