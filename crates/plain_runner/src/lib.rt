//! Runs of the real language by the calculus: to the end, one step at a time, or two steps in both
//! orders; and the trace of a program.
//!
//! [`PlainLanguage`] is a typed program as a language of `revision_machine`, with the local states
//! of `revision_steps` and the rules of `determinacy`; [`run_plain`] is the outcome of its
//! complete runs, and [`trace_of`] the trace of their end.
#![tactic(auto)]

mod language;
mod outcome;
mod run;
mod traces;

pub use language::PlainLanguage;
pub use run::run_plain;
pub use traces::trace_of;
