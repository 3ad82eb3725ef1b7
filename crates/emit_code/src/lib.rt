//! Writes the code of expressions, and of statements of every form.
#![tactic(auto)]

mod blocks;
mod body;
mod choices;
mod emit;
mod known;
mod operators;
mod parts;
mod simple;
mod task;
mod turns;
mod writing;

pub use blocks::emit_block;
pub use body::Body;
pub use emit::{emit_arguments, emit_expression};
pub use known::{Known, NameNumbers, Numbered};
pub use parts::{emit_items, emit_returned, emit_right_side};
pub use simple::{
    emit_assert, emit_assign, emit_assign_cell, emit_bind, emit_call, emit_fork, emit_join,
    emit_print, emit_return,
};
pub use writing::{here, patch, put};
