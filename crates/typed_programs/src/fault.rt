//! Static rules and limits that a program breaks.

ghost use Rattle.std.specs.Prelude.{◌≡◌};
ghost use Rattle.typed_programs.specs.Faults as rule;
ghost use Rattle.typed_programs.specs.declared.fault.TypeFault.TheVariants.{OutOfMemory};

use rev_report::Limit;
use std::alloc::AllocError;

/// A static rule or a limit that a program breaks, with its place; or want of memory, which says
/// nothing of the program.
#[derive(Clone, Copy, Drop)]
pub enum TypeFault {
    /// A name that means nothing.
    UnknownName { at: u32 },
    /// A name that is declared again.
    Redeclared { at: u32 },
    /// What has another kind than is wanted, or input that is read in a fun or a merge.
    WrongType { at: u32 },
    /// A call with another number of arguments, or an array without cells.
    WrongCount { at: u32 },
    /// A procedure with a result whose block does not return.
    NoReturn { at: u32 },
    /// More of something than the limit, and the number of the limit.
    LimitOf { at: u32, which: Limit, limit: u32 },
    OutOfMemory,
}

impl TypeFault {
    /// The fault of what goes over a limit here.
    pub fn exceeded(limit: Limit, at: u32) -> TypeFault
        ensures { result ≡ rule.exceeded at limit }
    {
        TypeFault::LimitOf {
            at,
            which: limit,
            limit: limit.most(),
        }
    }
}

impl From<AllocError> for TypeFault {
    ghost from_gives = { λ _ e. e ≡ OutOfMemory };

    fn from(_e: AllocError) -> TypeFault {
        TypeFault::OutOfMemory
    }
}
