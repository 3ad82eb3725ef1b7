//! Which kernel merges which location of a program.
#![tactic(auto)]

mod choosing;
mod laws;

pub use choosing::choose_kernels;
pub use laws::choice_laws;
