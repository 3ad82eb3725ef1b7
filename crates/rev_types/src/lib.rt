//! The static rules on statements and declarations, and the limits.
#![tactic(auto)]

mod checker;
mod decls;
mod laws;
mod lookup;
mod passed;
mod statements;
mod tables;
mod typed;

pub use checker::check;
pub use laws::{name_laws, program_laws};
pub use lookup::{NameTables, name_tables};
