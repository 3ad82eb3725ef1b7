//! Traps and outcomes of a run.

ghost use Rattle.std.specs.Prelude.{◌≡◌, IfOk};

use crate::items::{Bytes, Items};
use crate::path::Path;
use crate::value::{NumFault, Value};
use std::alloc::{AllocError, Global};

/// Why a revision trapped.
#[derive(Clone, Copy, PartialEq, Eq)]
pub enum Cause {
    Overflow,
    ZeroDivisor,
    /// An index outside of its array, or a position where no input stands.
    Index,
    Assert,
    /// A join of the handle `none`.
    JoinNone,
    /// A call where the revision has all the frames that it may have.
    CallDepth,
    /// No fuel was left for a statement.
    Spent,
    /// Merges faulted, this one at the least location.
    Merge { location: u32, fault: NumFault },
}

/// How a revision trapped: the cause, the line of the statement, and the revision that trapped
/// first.
#[derive(Drop)]
pub struct Trap {
    pub cause: Cause,
    pub line: u32,
    pub origin: Path,
}

impl Trap {
    /// An equal trap.
    pub fn copy(&self, alloc: Global) -> Result<Trap, AllocError>
        ensures { IfOk result (λ t. t ≡ self.now) }
    {
        Ok(Trap {
            cause: self.cause,
            line: self.line,
            origin: self.origin.copy(alloc)?,
        })
    }
}

/// A location as a report shows it: the variable's name, the cell of an array, and the value.
#[derive(Drop)]
pub struct Shown {
    pub name: Bytes,
    pub cell: Option<u32>,
    pub value: Value,
}

/// The outcome of a run: what `main` printed, the values of its view, one for each location in
/// order, and how it ended; or `Twice`, where a revision was joined twice.
#[derive(Drop)]
pub enum Outcome {
    Done {
        text: Bytes,
        values: Items<Shown>,
    },
    Trapped {
        text: Bytes,
        values: Items<Shown>,
        trap: Trap,
    },
    Twice,
}
