//! What a join writes into the locations of the joiner, and the values of merges.
#![tactic(auto)]

mod changes;
mod merging;

pub use changes::{FaultedMerge, compose, write_all};
pub use merging::merged_value;
