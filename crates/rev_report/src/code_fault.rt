//! What can be wrong with code.
ghost use Rattle.std.specs.Prelude.{◌≡◌};
ghost use Rattle.rev_report.specs.Faults.{name_of_file_fault, name_of_instruction_fault};

/// What is wrong with a code file at one of its bytes.
#[derive(Clone, Copy, Drop)]
pub enum FileFault {
    /// The file ends before its last field.
    Truncated,
    /// A field with a value that it can't have.
    BadField,
    /// A byte behind the last field.
    Trailing,
}

impl FileFault {
    /// How a message names the fault.
    pub(crate) fn name(self) -> &'static str
        ensures { result.now ≡ name_of_file_fault self }
    {
        match self {
            FileFault::Truncated => "truncated",
            FileFault::BadField => "bad field",
            FileFault::Trailing => "trailing bytes",
        }
    }
}

/// Which rule on code an instruction breaks.
#[derive(Clone, Copy, Drop)]
pub enum InstructionFault {
    /// A target that no jump may have.
    BadJump,
    /// An operand that names nothing of the right sort.
    BadOperand,
    /// Words on the stack that are too few, too many, or others than on another way.
    StackShape,
    /// A word of another kind than is taken.
    WrongKind,
    /// A local outside of those of the block.
    BadLocal,
    /// A last instruction behind which the block goes on.
    FallsOff,
    /// A number above its limit.
    OverLimit,
}

impl InstructionFault {
    /// How a message names the fault.
    pub(crate) fn name(self) -> &'static str
        ensures { result.now ≡ name_of_instruction_fault self }
    {
        match self {
            InstructionFault::BadJump => "bad jump",
            InstructionFault::BadOperand => "bad operand",
            InstructionFault::StackShape => "stack shape",
            InstructionFault::WrongKind => "wrong kind",
            InstructionFault::BadLocal => "bad local",
            InstructionFault::FallsOff => "falls off",
            InstructionFault::OverLimit => "over a limit",
        }
    }
}
