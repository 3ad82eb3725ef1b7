//! Instructions of one block.
#![tactic(auto)]

mod block;
mod deed;
mod instruction;
mod marking;
mod memory;
mod notes;
mod registers;
mod table;
mod values;
mod words;

pub use block::{fetch, run_block};
pub use instruction::act;
pub use memory::Memory;
pub use notes::{Notes, ReadMarks};
pub use registers::{Act, BlockTrap, Registers, Stop, Variable};
pub use table::table_of;
pub use words::agreement;
