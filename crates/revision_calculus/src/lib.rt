//! What a program means: the calculus of concurrent revisions over the language's programs, and the
//! laws of its runs.
//!
//! `specs/Program.antt` says what a run is given and looks up, over the tables of `typed_programs`;
//! `specs/State.antt` has the local state of a revision; `specs/Evaluation.antt`, `specs/Step.antt`
//! and `specs/Join.antt` say what its steps do; `specs/Calculus.antt` is the machine of revisions
//! and its start; `specs/Outcome.antt` is what a run gives, and `rev_report` has what is written of
//! it. The rules of forks and joins are those of Burckhardt, Baldassin and Leijen, "Concurrent
//! Programming with Revisions and Isolation Types" (OOPSLA 2010), and of Burckhardt and Leijen,
//! "Semantics of Concurrent Revisions" (ESOP 2011); paths, fuel and the end at a second join are
//! this language's own.
#![tactic(auto)]

mod laws;
mod worked;

pub use laws::{determinacy_laws, fuel_laws, handle_laws, kind_laws, shape_laws};
pub use worked::{
    accounts, deep_calls, expression_programs, join_programs, number_programs, second_joins,
    statement_programs, trap_programs, try_programs, typed_programs,
};
