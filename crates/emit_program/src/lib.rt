//! The code of a program, with its tables: the kinds of locals, the texts, the layouts, the numbers
//! of names, and the table of variables.
#![tactic(auto)]

mod blocks;
mod bodies;
mod listed;
mod numbers;
mod params;
mod prints;
mod program;
mod statements;
mod values;
mod variables;

pub use blocks::{ValueBlocks, value_blocks};
pub use listed::Listed;
pub use numbers::name_numbers;
pub use program::emit;
pub use statements::list_block;
pub use variables::code_vars;
