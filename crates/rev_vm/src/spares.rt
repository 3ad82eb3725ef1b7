//! Tables of locations that revisions which have ended leave to revisions that begin.

ghost use Rattle.std.specs.Prelude.{◌≡◌, [], IfOk};
ghost use Rattle.version_map.specs.Deltas.{locations, IsEmpty};

use std::alloc::{AllocError, Global};
use version_map::{Delta, First};

/// The most tables that are kept at a time.
const MOST: usize = 32;

/// The tables of a revision that has ended, in which nothing is written any more.
#[derive(Drop)]
struct Tables {
    delta: Delta,
    first: First,
    ghost empty: { IsEmpty delta },
    ghost none: { IsEmpty first.roots },
    ghost same: { locations delta ≡ locations first.roots },
}

/// Tables of locations of revisions that have ended, for revisions that begin: up to 32 of them. So
/// where one revision ends before the next begins, none is made anew.
#[derive(Drop)]
pub struct Spares {
    tables: Vec<Tables>,
}

impl Spares {
    /// None. It takes no memory.
    pub fn new(alloc: Global) -> Spares
        ensures { result.tables.items ≡ [] }
    {
        Spares {
            tables: Vec::new(alloc),
        }
    }

    /// Makes room for one more, so that no memory is taken where a revision ends.
    fn make_room(&mut self) -> Result<(), AllocError> {
        if self.tables.len() < MOST {
            self.tables.reserve(1)?;
        }
        Ok(())
    }

    /// Tables for so many locations in which nothing is written. The error is want of memory.
    pub(crate) fn take(&mut self, alloc: Global, count: u32) -> Result<(Delta, First), AllocError>
        ensures delta { IfOk result (λ r. (locations r.0 ≡ count) × IsEmpty r.0) }
        ensures first { IfOk result (λ r. (locations r.1.roots ≡ count) × IsEmpty r.1.roots) }
    {
        if let Some(Tables { delta, first }) = self.tables.pop() {
            if delta.locations() == count {
                return Ok((delta, first));
            }
        }
        self.make_room()?;
        Ok((Delta::new(alloc, count)?, First::new(alloc, count)?))
    }

    /// Takes back the tables of a revision that has ended, and clears them. Where there is no room
    /// for more they are let go of.
    pub(crate) fn keep(&mut self, mut delta: Delta, mut first: First)
        requires { locations delta ≡ locations first.roots }
    {
        if self.tables.len() < self.tables.capacity() && self.tables.len() < MOST {
            delta.clear();
            first.clear();
            self.tables.push_reserved(Tables { delta, first });
        }
    }
}
