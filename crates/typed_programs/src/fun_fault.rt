//! Rules on funs that a program breaks.

ghost use Rattle.std.specs.Prelude.{◌≡◌};
ghost use Rattle.typed_programs.specs.declared.fun_fault.MergeFault.TheVariants.{OutOfMemory};

use std::alloc::AllocError;

/// A rule on funs that a program breaks, with the place of the name of the application; or want of
/// memory, which says nothing of the program.
#[derive(Clone, Copy, Drop)]
pub enum MergeFault {
    /// No fun has this name.
    UnknownFun { at: u32 },
    /// The fun is not declared before the fun or the merge that applies it.
    LaterFun { at: u32 },
    /// The number of arguments is not that of the parameters.
    Arity { at: u32 },
    OutOfMemory,
}

impl From<AllocError> for MergeFault {
    ghost from_gives = { λ _ e. e ≡ OutOfMemory };

    fn from(_e: AllocError) -> MergeFault {
        MergeFault::OutOfMemory
    }
}
