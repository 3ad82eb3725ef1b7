//! The value of an expression over any environment, and the value of a merge. It takes no memory.
#![tactic(auto)]

mod borrowed;
mod environment;
mod funs;
mod locals;
mod merge;
mod operators;
mod seen;
mod value;
mod work;

pub use borrowed::{owned, seen_of};
pub use environment::Environment;
pub use merge::{counted_merge_value, merge_value};
pub use seen::Seen;
pub use value::evaluate;
