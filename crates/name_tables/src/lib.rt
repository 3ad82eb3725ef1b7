//! Names, and tables from names to values in the order in which the names came.
#![tactic(auto)]

mod table;

pub use table::NameTable;
