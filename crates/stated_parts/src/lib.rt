//! The stated parts of a trace, as an audit looks into them: their tables, what a part tells of the
//! end of its revision, and whether two parts say the same.
#![tactic(auto)]

mod ends;
mod path_table;
mod same;
mod stated;
mod tables;
mod told;

pub use ends::{AloneEnd, AloneWrite, told_locations};
pub use path_table::PathTable;
pub use same::is_same_part;
pub use stated::Stated;
pub use told::told_end;
