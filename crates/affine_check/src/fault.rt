//! How a program breaks the affine rule.

ghost use Rattle.std.specs.Prelude.{◌≡◌};
ghost use Rattle.typed_programs.specs.Least.{first_of, is_less};
ghost use Rattle.affine_check.specs.Faults as rule;
ghost use Rattle.affine_check.specs.declared.fault.AffineFault.TheVariants.{OutOfMemory};

use std::alloc::AllocError;

/// A breach of the affine rule, with its place, in the order of their numbers; or no memory was
/// left.
#[derive(Clone, Copy, Drop)]
pub enum AffineFault {
    /// A handle's name in a plain right side or in a part of a `pick`.
    Copied { at: u32 },
    /// A handle is assigned to the shared variable or cell of this name.
    Stored { at: u32 },
    /// A use that a path reaches after another one, with no new value between.
    UsedTwice { at: u32 },
    /// A use inside a `while` body of a handle that is declared outside of it.
    InLoop { at: u32 },
    OutOfMemory,
}

impl From<AllocError> for AffineFault {
    ghost from_gives = { λ _ e. e ≡ OutOfMemory };

    fn from(_e: AllocError) -> AffineFault {
        AffineFault::OutOfMemory
    }
}

fn place(fault: AffineFault) -> u32
    ensures { result ≡ rule.place fault }
{
    match fault {
        AffineFault::Copied { at } => at,
        AffineFault::Stored { at } => at,
        AffineFault::UsedTwice { at } => at,
        AffineFault::InLoop { at } => at,
        AffineFault::OutOfMemory => 0,
    }
}

fn rank(fault: AffineFault) -> u8
    ensures { result ≡ rule.rank fault }
{
    match fault {
        AffineFault::Copied { .. } => 1,
        AffineFault::Stored { .. } => 2,
        AffineFault::UsedTwice { .. } => 3,
        AffineFault::InLoop { .. } => 4,
        AffineFault::OutOfMemory => 5,
    }
}

/// Whether a fault is at a lesser place than another, or at the same with a lesser number.
fn precedes(f: AffineFault, g: AffineFault) -> bool
    ensures { result ≡ is_less (rule.place f) (rule.rank f) (rule.place g) (rule.rank g) }
{
    if place(f) < place(g) {
        true
    } else if place(g) < place(f) {
        false
    } else {
        rank(f) < rank(g)
    }
}

/// The first of two faults, either of which may be absent.
pub fn first(a: Option<AffineFault>, b: Option<AffineFault>) -> Option<AffineFault>
    ensures { result ≡ first_of rule.place rule.rank a b }
{
    match (a, b) {
        (Some(f), Some(g)) => Some(if precedes(g, f) { g } else { f }),
        (Some(f), None) => Some(f),
        (None, b) => b,
    }
}
