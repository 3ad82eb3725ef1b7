//! A hold with its store.
ghost use Rattle.std.specs.Prelude.{vec_len};
ghost use Rattle.segment_store.specs.Names.{IsOf, base, Told};
ghost use Rattle.segment_store.specs.Places.{seat_name};

use crate::store::{Hold, Spent, Store};
use std::alloc::{AllocError, Global};
use version_map::{Collapsed, Delta, How, Snapshot};

/// A hold with its store.
pub struct Held<'a> {
    pub store: &'a Store,
    pub hold: Hold,
    pub ghost of: { IsOf store.now hold },
}

impl<'a> Snapshot for Held<'a> {
    type Spent = Spent;

    ghost size = { λ h. vec_len h.store.now.initial };

    ghost base = { λ h. base h.store.now h.hold };

    ghost depth = { λ h. h.hold.depth };

    ghost group = { λ h. seat_name h.hold.seat };

    // Took: the last that the hold did to the segments was a collapse. Kept: the last that it found
    // was this count, above 1, at its first segment. Base: its chain has no segment.
    ghost answered = { λ h c. Told h.hold c };

    // A fork shares where a segment is free, and else it copies.
    ghost hows = { λ _. Unit {0} };

    ghost spent_group = { λ s. seat_name s.seat };

    fn read(&mut self, location: u32) -> u64 {
        self.store.read(&mut self.hold, location)
    }

    fn fork(&mut self, alloc: Global, delta: &mut Delta) -> Result<(Held<'a>, How), AllocError> {
        let (hold, how) = self.store.fork(alloc, &mut self.hold, delta)?;
        Ok((
            Held {
                store: self.store,
                hold,
            },
            how,
        ))
    }

    fn collapse(&mut self, into: &mut Delta) -> Collapsed {
        self.store.collapse(&mut self.hold, into)
    }

    fn release(self) -> Spent {
        let Held { store, hold } = self;
        store.release(hold)
    }
}
