//! The blocks of a program's code have the values of its funs and merges.
//!
//! Each law is a clause of an empty function.

ghost use Rattle.expression_meaning.specs.Funs.{ProgramFuns, ProgramMerges};

/// Of every program that the checker accepts, the value of the block of a fun is that of the fun,
/// for arguments of its parameters' kinds, and the value of the block of a merge that of the merge,
/// for all three numbers.
pub fn program_laws()
    ensures funs { ProgramFuns }
    ensures merges { ProgramMerges }
{}
