//! Revisions, for every machine: what a global state is, how it steps, the laws that hold of every
//! state that a run reaches, and a runner. Its definitions are those of Burckhardt, Baldassin and
//! Leijen (OOPSLA 2010) and of Burckhardt and Leijen (ESOP 2011) with paths for the names of
//! revisions, apart from what a local state is.
//!
//! [`theory`] names the laws of every machine that keeps the conditions. A language implements
//! [`Language`], whose rules are such a machine; [`step`], [`run`] and [`diamond_step`] run it one
//! step at a time, to the end, or two steps in both orders.
#![tactic(auto)]

mod complete_run;
mod language;
mod laws;
mod list;
mod one_step;
mod place_table;
mod state;
mod two_orders;

pub use complete_run::{run, start};
pub use language::{Language, Next};
pub use laws::{
    LawfulMachine, NumberedWorld, Simulated, schedule_theory, simulation_theory, theory,
};
pub use one_step::{StepOutcome, step};
pub use state::{GlobalState, RevisionRow, RevisionRows};
pub use two_orders::{BothOrders, copy_state, diamond_step};
