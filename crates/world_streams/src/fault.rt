//! Why a run that prints comes to no end.

ghost use Rattle.std.specs.Prelude.{◌≡◌};
ghost use Rattle.world_streams.specs.declared.fault.StreamFault.TheVariants as fault;

use std::alloc::AllocError;

/// Why a run that prints comes to no end.
#[derive(Clone, Copy, Drop)]
pub enum StreamFault {
    /// A call of the sink failed.
    Sink,
    OutOfMemory,
}

impl From<AllocError> for StreamFault {
    ghost from_gives = { λ _ f. f ≡ fault.OutOfMemory };

    fn from(_: AllocError) -> StreamFault {
        StreamFault::OutOfMemory
    }
}
