//! Why code is refused.

/// Where code breaks a rule, the block and the instruction by their numbers, or that memory is
/// wanting.
#[derive(Clone, Copy)]
pub enum CodeFault {
    BadJump { block: u32, at: u32 },
    BadOperand { block: u32, at: u32 },
    StackShape { block: u32, at: u32 },
    WrongKind { block: u32, at: u32 },
    BadLocal { block: u32, at: u32 },
    FallsOff { block: u32, at: u32 },
    LimitOf { block: u32, at: u32 },
    OutOfMemory,
}
