//! Segments with counts, and the steps of holders on them, as plain data.
#![tactic(auto)]

mod cells;
mod laws;
mod moves;
mod segment;
mod state;
mod step;

pub use laws::step_laws;
pub use state::{SegState, apply, refs};
pub use step::{Applied, SegStep};
