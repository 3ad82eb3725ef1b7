//! The values of funs and merges on the area of words, and the merges of all locations by the merge
//! blocks of code.
#![tactic(auto)]

mod evaluation;
mod frame;
mod laws;
mod merges;
mod numbers;
mod room;
mod rooms;

pub use evaluation::{Then, evaluate};
pub use frame::{begin, block_at, params_of};
pub use laws::merge_laws;
pub use merges::BlockMerges;
pub use rooms::rooms_of;
