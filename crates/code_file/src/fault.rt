//! Why bytes are no code file.

use std::alloc::{AllocError, AllocFailed};

/// The first fault of bytes that are no code file, or that memory is wanting. `at` is an offset in
/// bytes.
#[derive(Clone, Copy, Drop)]
pub enum ReadFault {
    /// The bytes begin otherwise than a code file.
    BadMagic,
    /// There is no such version.
    BadVersion,
    /// The file ends here, before the end of its last field.
    Truncated { at: usize },
    /// Here begins a field with a value that it can't have.
    BadField { at: usize },
    /// Here stands a byte behind the last field.
    Trailing { at: usize },
    /// It says nothing of the bytes.
    OutOfMemory,
}

impl From<AllocError> for ReadFault {
    ghost use Rattle.std.specs.Prelude.{◌≡◌};
    ghost use Rattle.code_file.specs.declared.fault.ReadFault.{ReadFault};

    ghost from_gives = { λ _ f. f ≡ ReadFault.OutOfMemory };

    fn from(_: AllocError) -> ReadFault {
        ReadFault::OutOfMemory
    }
}

impl<T: Drop> From<AllocFailed<T>> for ReadFault {
    ghost use Rattle.std.specs.Prelude.{◌≡◌};
    ghost use Rattle.code_file.specs.declared.fault.ReadFault.{ReadFault};

    ghost from_gives = { λ _ f. f ≡ ReadFault.OutOfMemory };

    fn from(_: AllocFailed<T>) -> ReadFault {
        ReadFault::OutOfMemory
    }
}
