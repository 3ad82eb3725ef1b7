//! Why a row can't be played.

ghost use Rattle.std.specs.Prelude.{◌≡◌};
ghost use Rattle.case_tables.specs.declared.fault.CaseFault.TheVariants.{OutOfMemory};

use std::alloc::{AllocError, AllocFailed};

/// Why a row can't be played.
#[derive(Clone, Copy, PartialEq, Eq, Debug, Drop)]
pub enum CaseFault {
    /// A line of the row is not of the form that its mark asks for.
    Malformed,
    OutOfMemory,
}

impl From<AllocError> for CaseFault {
    ghost from_gives = { λ _ f. f ≡ OutOfMemory };

    fn from(_error: AllocError) -> CaseFault {
        CaseFault::OutOfMemory
    }
}

impl<T: Drop> From<AllocFailed<T>> for CaseFault {
    ghost from_gives = { λ _ f. f ≡ OutOfMemory };

    fn from(_error: AllocFailed<T>) -> CaseFault {
        CaseFault::OutOfMemory
    }
}
