//! Where the code of statements stands, and when a state of the code stands where a local state of
//! the calculus does.
//!
//! Each law is an empty function.

ghost use Rattle.expression_meaning.specs.Laws.{BlocksFollow};

/// From where the code of a block stands, the code follows the block and then what remains behind
/// it.
pub fn block_law()
    ensures { BlocksFollow }
{}
