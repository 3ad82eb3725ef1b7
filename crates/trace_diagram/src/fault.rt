//! Why bytes are no trace text.

ghost use Rattle.std.specs.Prelude.{◌≡◌};
ghost use Rattle.trace_diagram.specs.declared.fault.TraceFault.TheVariants.{OutOfMemory};

use std::alloc::AllocError;

/// Why no trace was read: the bytes go wrong behind this many of them, or no memory was left.
#[derive(Clone, Copy, Drop)]
pub enum TraceFault {
    Malformed { at: u64 },
    OutOfMemory,
}

impl From<AllocError> for TraceFault {
    ghost from_gives = { λ _ e. e ≡ OutOfMemory };

    fn from(_e: AllocError) -> TraceFault {
        TraceFault::OutOfMemory
    }
}
