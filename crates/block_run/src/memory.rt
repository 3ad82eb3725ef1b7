//! What a revision reads and writes.

ghost use Rattle.std.specs.Prelude.{◌≡◌, ◌≢◌, ◌<◌, ◌≤◌, [], ◌∷◌, IfOk, None};
ghost use Rattle.version_map.specs.declared.snapshot.Collapsed.{Collapsed};
ghost use Rattle.version_map.specs.declared.snapshot.How.TheVariants as how;
ghost use Rattle.version_map.specs.Ascending.{IsAscending};
ghost use Rattle.version_map.specs.Deltas.{at, locations, IsEmpty};
ghost use Rattle.version_map.specs.Overlay.{under, Agree};
ghost use Rattle.block_run.specs.Remembering.{written_below, written_there, Kept};
ghost use Rattle.block_run.specs.Remembering.{HasRoom, Remembered, Wrote, written_count};

use std::alloc::{AllocError, Global};
use version_map::{Delta, First, How, Snapshot, Written};

/// What a revision reads and writes: its snapshot, what lies over it, and for each location that it
/// has written the word that was there when it was forked.
#[derive(Drop)]
pub struct Memory<P: Snapshot> {
    pub delta: Delta,
    pub first: First,
    pub snapshot: P,
    ghost written: { locations delta ≡ P.size snapshot },
    ghost roots: { locations first.roots ≡ P.size snapshot },
}

impl<P: Snapshot> Memory<P> {
    /// The word of a location.
    #[inline(always)]
    pub fn read(&mut self, location: u32) -> u64
        requires { location < P.size self.old.snapshot }
        ensures value { result ≡ under self.old.delta (P.base self.old.snapshot) location }
        ensures kept { Kept (P.size self.old.snapshot)
            (under self.old.delta (P.base self.old.snapshot))
            (under self.new.delta (P.base self.new.snapshot))
            (at self.old.first.roots) (at self.new.first.roots) }
        ensures size { P.size self.new.snapshot ≡ P.size self.old.snapshot }
        ensures group { P.group self.new.snapshot ≡ P.group self.old.snapshot }
        ensures answered { (c : Collapsed) → P.answered self.old.snapshot c
            → P.answered self.new.snapshot c }
    {
        match self.delta.get(location) {
            Some(word) => word,
            None => self.snapshot.read(location),
        }
    }

    /// Sees to it that the word at the fork is known at a location that is about to be written.
    #[inline(always)]
    fn remember(&mut self, location: u32)
        requires { location < P.size self.old.snapshot }
        ensures remembered { Remembered (P.size self.old.snapshot)
            (under self.old.delta (P.base self.old.snapshot))
            (under self.new.delta (P.base self.new.snapshot))
            (at self.old.first.roots) (at self.new.first.roots) location }
        ensures size { P.size self.new.snapshot ≡ P.size self.old.snapshot }
        ensures group { P.group self.new.snapshot ≡ P.group self.old.snapshot }
        ensures answered { (c : Collapsed) → P.answered self.old.snapshot c
            → P.answered self.new.snapshot c }
    {
        match self.first.get(location) {
            Some(_) => {},
            None => {
                let root = self.read(location);
                self.first.set(location, root);
            },
        }
    }

    /// Gives a location a word.
    #[inline(always)]
    pub fn write(&mut self, location: u32, word: u64)
        requires { location < P.size self.old.snapshot }
        ensures wrote { Wrote (P.size self.old.snapshot)
            (under self.old.delta (P.base self.old.snapshot))
            (under self.new.delta (P.base self.new.snapshot))
            (at self.old.first.roots) (at self.new.first.roots) location word }
        ensures size { P.size self.new.snapshot ≡ P.size self.old.snapshot }
        ensures group { P.group self.new.snapshot ≡ P.group self.old.snapshot }
        ensures answered { (c : Collapsed) → P.answered self.old.snapshot c
            → P.answered self.new.snapshot c }
    {
        self.remember(location);
        self.delta.set(location, word);
    }

    /// The snapshot of a child, whose words are those that its forker sees. How the child has them
    /// is the snapshot's answer.
    pub fn fork(&mut self, alloc: Global) -> Result<(P, How), AllocError>
        ensures child { IfOk result (λ r. Agree (P.size self.old.snapshot) (P.base r.0)
            (under self.old.delta (P.base self.old.snapshot))) }
        ensures child_size { IfOk result (λ r. P.size r.0 ≡ P.size self.old.snapshot) }
        ensures child_group { IfOk result (λ r. P.group r.0 ≡ P.group self.old.snapshot) }
        ensures how { IfOk result (λ r. P.hows r.1) }
        ensures shared { IfOk result (λ r. r.1 ≡ how.Shared → IsEmpty self.new.delta) }
        ensures copied { IfOk result (λ r. r.1 ≡ how.Copied → self.new.delta ≡ self.old.delta) }
        ensures kept { Kept (P.size self.old.snapshot)
            (under self.old.delta (P.base self.old.snapshot))
            (under self.new.delta (P.base self.new.snapshot))
            (at self.old.first.roots) (at self.new.first.roots) }
        ensures size { P.size self.new.snapshot ≡ P.size self.old.snapshot }
        ensures group { P.group self.new.snapshot ≡ P.group self.old.snapshot }
    {
        self.snapshot.fork(alloc, &mut self.delta)
    }

    /// What was written at a location that was.
    #[inline(always)]
    fn written_at(&mut self, location: u32) -> Written
        requires inside { location < P.size self.old.snapshot }
        requires some { at self.old.first.roots location ≢ None }
        ensures value { result ∷ [] ≡ written_there location
            (under self.old.delta (P.base self.old.snapshot) location)
            (at self.old.first.roots location) }
        ensures kept { Kept (P.size self.old.snapshot)
            (under self.old.delta (P.base self.old.snapshot))
            (under self.new.delta (P.base self.new.snapshot))
            (at self.old.first.roots) (at self.new.first.roots) }
        ensures size { P.size self.new.snapshot ≡ P.size self.old.snapshot }
        ensures group { P.group self.new.snapshot ≡ P.group self.old.snapshot }
        ensures answered { (c : Collapsed) → P.answered self.old.snapshot c
            → P.answered self.new.snapshot c }
    {
        let root = self.first.word(location);
        let value = self.read(location);
        Written {
            location,
            value,
            root,
        }
    }

    /// No fewer than the locations that were written. It counts the bits of each row of 64 locations
    /// of which one was written.
    fn room(&self) -> usize
        ensures { written_count (at self.now.first.roots) (P.size self.now.snapshot) ≤ result }
    {
        let mut room = 0;
        let mut from = 0;
        while let Some(row) = self.first.next_row(from) {
            room += self.first.mask_row(row).count_ones() as usize;
            from = row + 1;
        }
        room
    }

    /// An empty list with room for the locations that were written, so that `list_written` takes no
    /// memory.
    pub fn room_for_written(&self, alloc: Global) -> Result<Vec<Written>, AllocError>
        ensures { IfOk result (λ r. HasRoom r (at self.now.first.roots)
            (P.size self.now.snapshot)) }
    {
        Vec::with_capacity(alloc, self.room())
    }

    /// The locations that were written, in ascending order, each with its word and the word that
    /// was there when the revision was forked. The list that is given is empty and has room for
    /// them, and is the one that comes back. It goes from one written location to the next.
    pub fn list_written(&mut self, room: Vec<Written>) -> Vec<Written>
        requires { HasRoom room (at self.old.first.roots) (P.size self.old.snapshot) }
        ensures written { result.items ≡ written_below
            (under self.old.delta (P.base self.old.snapshot))
            (at self.old.first.roots) (P.size self.old.snapshot) }
        ensures order { IsAscending result.items }
        ensures kept { Kept (P.size self.old.snapshot)
            (under self.old.delta (P.base self.old.snapshot))
            (under self.new.delta (P.base self.new.snapshot))
            (at self.old.first.roots) (at self.new.first.roots) }
        ensures size { P.size self.new.snapshot ≡ P.size self.old.snapshot }
        ensures group { P.group self.new.snapshot ≡ P.group self.old.snapshot }
        ensures answered { (c : Collapsed) → P.answered self.old.snapshot c
            → P.answered self.new.snapshot c }
    {
        let mut written = room;
        let mut from = 0;
        while let Some(location) = self.first.next(from) {
            written.push_reserved(self.written_at(location));
            from = location + 1;
        }
        written
    }

    /// What `list_written` gives, in a list of its own.
    pub fn written(&mut self, alloc: Global) -> Result<Vec<Written>, AllocError>
        ensures written { IfOk result (λ ws. ws.items ≡ written_below
            (under self.old.delta (P.base self.old.snapshot))
            (at self.old.first.roots) (P.size self.old.snapshot)) }
        ensures order { IfOk result (λ ws. IsAscending ws.items) }
        ensures kept { Kept (P.size self.old.snapshot)
            (under self.old.delta (P.base self.old.snapshot))
            (under self.new.delta (P.base self.new.snapshot))
            (at self.old.first.roots) (at self.new.first.roots) }
        ensures size { P.size self.new.snapshot ≡ P.size self.old.snapshot }
        ensures group { P.group self.new.snapshot ≡ P.group self.old.snapshot }
        ensures answered { (c : Collapsed) → P.answered self.old.snapshot c
            → P.answered self.new.snapshot c }
    {
        let room = self.room_for_written(alloc)?;
        Ok(self.list_written(room))
    }
}
