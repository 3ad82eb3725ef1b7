//! Tables of cases: rows of marked lines that a program of cases reads and plays.
#![tactic(auto)]

mod fault;
mod marked;
mod pieces;
mod programs;
mod rounds;
mod table;
mod tally;

pub use fault::CaseFault;
pub use marked::{behind, field, has, number_of, numbers_of};
pub use pieces::Pieces;
pub use programs::{MEGABYTE, typed_of};
pub use rounds::Rounds;
pub use table::play_table;
pub use tally::Tally;
