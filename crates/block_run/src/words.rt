//! Words without a kind, as a machine keeps them, and the law that they step as words of a kind do.

ghost use Rattle.block_run.specs.Agreement.{PlainStepsAgree};

/// What an instruction does on words without a kind stands for what it does on words of a kind,
/// where that has a step and the instruction neither applies, calls, returns, prints nor meets
/// another revision.
pub fn agreement()
    ensures { PlainStepsAgree }
{}
