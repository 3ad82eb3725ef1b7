//! Why words say nothing.

ghost use Rattle.std.specs.Prelude.{◌≡◌};
ghost use Rattle.rev_words.specs.declared.fault.WordsFault.TheVariants.{OutOfMemory};

use std::alloc::{AllocError, AllocFailed};

/// Why words say nothing.
#[derive(Clone, Copy)]
pub enum WordsFault {
    /// The command does not take the words, or a value breaks its rule.
    Usage,
    OutOfMemory,
}

impl From<AllocError> for WordsFault {
    ghost from_gives = { λ _ e. e ≡ OutOfMemory };

    fn from(_error: AllocError) -> WordsFault {
        WordsFault::OutOfMemory
    }
}

impl<T: Drop> From<AllocFailed<T>> for WordsFault {
    ghost from_gives = { λ _ e. e ≡ OutOfMemory };

    fn from(_error: AllocFailed<T>) -> WordsFault {
        WordsFault::OutOfMemory
    }
}
