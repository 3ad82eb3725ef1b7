//! The audit of a trace: whether what is said to be the trace of a program is that.
//!
//! [`audit`] goes over the stated parts from the last to the first, so that a forker comes before
//! its children. The own run of each revision begins where its forker's own run left it
//! (`starts`), goes on by itself (`run`), and takes at a join what the stated part of the joinee
//! tells (`joinee`); what comes of it is held against the stated part (`sweep`). What is looked up
//! of the stated parts is in `stated_parts`.
//!
//! One revision by itself has its steps, and its joins of revisions of which the end alone is told
//! (`alone`).
#![tactic(auto)]

mod alone;
mod auditing;
mod joinee;
mod run;
mod starts;
mod sweep;

pub use alone::{Alone, LocalState, first_alone, join_alone, step_alone};
pub use auditing::audit;
pub use stated_parts::{AloneEnd, AloneWrite};
