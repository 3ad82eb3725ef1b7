//! The verifier accepts the code of every program that the checker accepts.
//!
//! Each law is an empty function.
#![tactic(auto)]

ghost use Rattle.generated_blocks.specs.Laws.{GeneratedCodeIsAccepted, InstructionsKeepRules};

/// No instruction of the code of a small, well-typed program whose funs and merges keep the rules
/// on funs breaks a rule, and each fun and merge is within its limits.
pub fn instruction_law()
    ensures { InstructionsKeepRules }
{}

/// The code of a program that the checker accepts has no fault.
pub fn accepted_law()
    ensures { GeneratedCodeIsAccepted }
{}
