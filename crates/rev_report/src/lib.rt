//! What a call of the program writes of an outcome, and the status with which it ends.
//!
//! A report is what standard output and standard error get, and a status. That of a run has what
//! `main` printed, its values where they are asked for, and the message of its trap; or only the
//! message that a revision was joined twice.
#![tactic(auto)]

mod code_fault;
mod fault;
mod limit;
mod modes;
mod order;
mod outcome;
mod refusal;
mod report;
pub mod status;

pub use code_fault::{FileFault, InstructionFault};
pub use fault::{Place, TextFault};
pub use limit::Limit;
pub use modes::{
    accepted_report, agreed_report, done_report, reused_report, summary_report, trace_report,
};
pub use order::order_report;
pub use outcome::{append_value, outcome_bytes};
pub use refusal::{Refusal, no_memory_message, refusal_bytes};
pub use report::Report;
