//! The code of a program's statements does what they do, step by step.
//!
//! Each law is an empty function.

ghost use Rattle.program_meaning.specs.StatementLaws.{JoinersGoOn, LeftSidesTake, MainStands};
ghost use Rattle.program_meaning.specs.StatementLaws.{StateReads, StatementsRun};

/// Where the code of an accepted program stands as a running revision does, a step of the calculus
/// is matched by one instruction or more, to a related state; or the code comes to the same trap
/// with its line, to the end, to the same join, or to the fork of the same child.
pub fn step_law()
    ensures { StatementsRun }
{}

/// A related state reads as expressions do: locals, shared variables and input.
pub fn reading_law()
    ensures { StateReads }
{}

/// A word that a call, a fork or a `tryjoin` gives comes to its left side by at most one
/// instruction.
pub fn left_side_law()
    ensures { LeftSidesTake }
{}

/// Behind a join a joiner goes on in a related state, once its left side has what a `tryjoin`
/// gives, where both machines have written the same.
pub fn joiner_law()
    ensures { JoinersGoOn }
{}

/// The first states of `main` are related.
pub fn start_law()
    ensures { MainStands }
{}
