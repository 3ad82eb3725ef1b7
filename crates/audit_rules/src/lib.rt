//! Theory of the audit of a trace: what each revision does on its own, where each join takes the
//! stated part of the joinee, tells whether the stated parts are the trace of the run.
//!
//! `specs/Audited.antt` says it of any machine of revisions, `specs/Parts.antt` has the parts of
//! the calculus, `specs/Traces.antt` the trace of a final state and its laws, `specs/Traced.antt`
//! the trace of a program, and `specs/Verdicts.antt` what an audit answers.
#![tactic(auto)]

mod laws;
mod verdict;

pub use laws::{audit_laws, verdict_laws};
pub use verdict::{Computed, Verdict};
