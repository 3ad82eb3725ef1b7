//! The code of typed expressions and statements has certificates, and the tables of a well-typed
//! program's code keep the verifier's rules.
//!
//! Each law is an empty function.
#![tactic(auto)]

mod certificates;
mod statements;
mod tables;

pub use certificates::expression_law;
pub use statements::statement_law;
pub use tables::table_laws;
