//! The code of an expression gives its value, and the block of a fun or merge that of its body.
//!
//! Each law is an empty function.

ghost use Rattle.expression_meaning.specs.Agrees.{ArgumentsRun, ExpressionsRun};
ghost use Rattle.expression_meaning.specs.Blocks.{FunBlocksGive, MergeBlocksGive};

/// From a state that reads as the expression does, the code of an expression that has a kind leads
/// to its value on the stack, with all else as before, or to a trap with its cause.
pub fn expression_law()
    ensures { ExpressionsRun }
{}

/// So does the code of arguments: it leads to all their values on the stack, or to the trap of the
/// first that has none.
pub fn arguments_law()
    ensures { ArgumentsRun }
{}

/// The block of a fun or merge whose body keeps the rules has, for arguments of its parameters'
/// kinds, the value of the body, or its cause, where the funs that the body applies have theirs.
pub fn block_laws()
    ensures funs { FunBlocksGive }
    ensures merges { MergeBlocksGive }
{}
