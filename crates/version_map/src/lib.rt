//! What a revision writes, what it reads under its writes, what it leaves when it has ended, and
//! what a joiner takes over of that.
#![tactic(auto)]

mod delta;
mod eights;
mod end;
mod first;
mod joining;
mod one_word;
mod snapshot;
mod whole;

pub use delta::{Delta, mask_rows};
pub use eights::{eight_roots, eight_values, eight_words, follow};
pub use end::{CodeTrap, EndValue, Finish, Written};
pub use first::First;
pub use joining::{MergeBy, MergeTrap, compose};
pub use one_word::next_bit;
pub use snapshot::{Collapsed, How, Snapshot, collapse_all};
pub use whole::Whole;
