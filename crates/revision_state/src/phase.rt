//! What a revision is about, and the list of its forks and joins.

ghost use Rattle.std.specs.Prelude.{◌≡◌, ◌↔◌, IfOk, IsTrue, map, option_copied};
ghost use Rattle.revision_calculus.specs.Join as calculus;
ghost use Rattle.revision_state.specs.Phases as spec;

use rev_num::{Path, Trap};
use std::alloc::{AllocError, Global};

/// What a revision is about.
#[derive(Drop)]
pub enum Phase<'a> {
    Running,
    /// At a join of the revision at this path, with the left side that waits for the answer of a
    /// `tryjoin`.
    Joining { on: Path, left: Option<&'a [u8]> },
    Done,
    Trapped(Trap),
}

/// An entry of the list of forks and joins: which revision, and the line of the statement.
#[derive(Drop)]
pub enum ForkOrJoin {
    Forked { path: Path, line: u32 },
    Joined { path: Path, line: u32 },
}

impl<'a> Phase<'a> {
    /// Whether the revision is done or trapped.
    pub fn has_ended(&self) -> bool
        ensures { IsTrue result ↔ spec.IsEnded (spec.phase self.now) }
    {
        match self {
            Phase::Running | Phase::Joining { on: _, left: _ } => false,
            Phase::Done | Phase::Trapped(_) => true,
        }
    }

    /// The trap of a revision that trapped.
    pub fn trap(&self) -> Option<&Trap>
        ensures { option_copied result ≡ spec.trap_in (spec.phase self.now) }
    {
        match self {
            Phase::Trapped(trap) => Some(trap),
            _ => None,
        }
    }

    /// The path of the revision that is joined, at a join.
    pub fn awaited(&self) -> Option<&Path>
        ensures { option_copied result ≡ spec.awaited (spec.phase self.now) }
    {
        match self {
            Phase::Joining { on, left: _ } => Some(on),
            _ => None,
        }
    }

    /// The left side that waits at a join.
    pub fn left(&self) -> Option<&'a [u8]>
        ensures { option_copied result ≡ calculus.left_side (spec.phase self.now) }
    {
        match self {
            Phase::Joining { on: _, left } => *left,
            _ => None,
        }
    }

    /// An equal phase.
    pub fn copy(&self, alloc: Global) -> Result<Phase<'a>, AllocError>
        ensures { IfOk result (λ p. spec.phase p ≡ spec.phase self.now) }
    {
        match self {
            Phase::Running => Ok(Phase::Running),
            Phase::Joining { on, left } => Ok(Phase::Joining {
                on: on.copy(alloc)?,
                left: *left,
            }),
            Phase::Done => Ok(Phase::Done),
            Phase::Trapped(trap) => Ok(Phase::Trapped(trap.copy(alloc)?)),
        }
    }
}

impl ForkOrJoin {
    fn copy(&self, alloc: Global) -> Result<ForkOrJoin, AllocError>
        ensures { IfOk result (λ n. spec.noted n ≡ spec.noted self.now) }
    {
        match self {
            ForkOrJoin::Forked { path, line } => Ok(ForkOrJoin::Forked {
                path: path.copy(alloc)?,
                line: *line,
            }),
            ForkOrJoin::Joined { path, line } => Ok(ForkOrJoin::Joined {
                path: path.copy(alloc)?,
                line: *line,
            }),
        }
    }
}

/// An equal list of forks and joins.
pub fn copy_noted(alloc: Global, list: &[ForkOrJoin]) -> Result<Vec<ForkOrJoin>, AllocError>
    ensures { IfOk result (λ c. map spec.noted c.items ≡ map spec.noted list.now) }
{
    let mut copy = Vec::with_capacity(alloc, list.len())?;
    for noted in list {
        copy.push(noted.copy(alloc)?)?;
    }
    Ok(copy)
}
