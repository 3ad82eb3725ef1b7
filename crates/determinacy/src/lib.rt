//! The calculus of `revision_calculus` as the rules of a runner of `revision_machine`: which
//! handles a local state holds, a bound on its steps, and the limit within which a run stays.
//!
//! `specs/Rules.antt` has the rules of a program; [`rule_laws`] says that they keep the conditions
//! of the laws. [`end_law`] says what a join sees of the revision that is joined: its end alone.
#![tactic(auto)]

mod ends;
mod laws;

pub use ends::end_law;
pub use laws::rule_laws;
