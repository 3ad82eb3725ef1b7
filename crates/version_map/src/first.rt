//! The words that were there when a revision was forked.

ghost use Rattle.std.specs.Prelude.{◌≡◌, ◌≢◌, ℕ, ◌+◌, ◌*◌, ◌<◌, ◌≤◌, Some, None, IfOk};
ghost use Rattle.std.specs.Prelude.{MatchBool, MatchOption, slice_index};
ghost use Rattle.version_map.specs.Deltas.{at, locations, HasRow, IsEmpty};
ghost use Rattle.version_map.specs.Deltas.{AreEmpty, AreEmptyRows, IsNext, IsNextRow, mask_of};
ghost use Rattle.version_map.specs.Masks.{rows};

use crate::delta::Delta;
use std::alloc::{AllocError, Global};

/// For each location that a revision has written, the word that was there when it was forked, which
/// is the root of a merge: a collapse moves words of the base into the delta, so the base alone
/// does not tell.
#[derive(Drop)]
pub struct First {
    roots: Delta,
}

impl First {
    /// No word, for `count` locations.
    pub fn new(alloc: Global, count: u32) -> Result<First, AllocError>
        ensures { IfOk result (λ f. (locations f.roots ≡ count) × IsEmpty f.roots) }
    {
        Ok(First {
            roots: Delta::new(alloc, count)?,
        })
    }

    /// The word of the location, where it has one.
    pub fn get(&self, location: u32) -> Option<u64>
        requires { location < locations self.now.roots }
        ensures { result ≡ at self.now.roots location }
    {
        self.roots.get(location)
    }

    /// The word of a location that has one.
    #[inline(always)]
    pub fn word(&self, location: u32) -> u64
        requires inside { location < locations self.now.roots }
        requires some { at self.now.roots location ≢ None }
        ensures { at self.now.roots location ≡ Some result }
    {
        self.roots.word(location)
    }

    /// Whether each of the 64 locations from `64 * row` on has a word.
    pub fn has_row(&self, row: usize) -> bool
        requires { 64 * row + 64 ≤ locations self.now.roots }
        ensures { MatchBool result (HasRow self.now.roots row) (¬ HasRow self.now.roots row) }
    {
        self.roots.has_row(row)
    }

    /// The least location from this one on that has a word, if one has.
    #[inline(always)]
    pub fn next(&self, from: u32) -> Option<u32>
        ensures { MatchOption result
            (AreEmpty self.now.roots from (locations self.now.roots))
            (IsNext self.now.roots from) }
    {
        self.roots.next(from)
    }

    /// The least row of 64 locations from this one on in which some location has a word, if there
    /// is one.
    #[inline(always)]
    pub fn next_row(&self, from: usize) -> Option<usize>
        ensures { MatchOption result
            (AreEmptyRows self.now.roots from (rows (locations self.now.roots)))
            (IsNextRow self.now.roots from) }
    {
        self.roots.next_row(from)
    }

    /// The bits of 64 locations from `64 * row` on, the lowest first, 1 where a location has a
    /// word.
    pub fn mask_row(&self, row: usize) -> u64
        requires { row < rows (locations self.now.roots) }
        ensures { result ≡ slice_index (mask_of self.now.roots) row }
    {
        self.roots.mask_row(row)
    }

    /// Gives the location a word.
    pub fn set(&mut self, location: u32, word: u64)
        requires { location < locations self.old.roots }
        ensures size { locations self.new.roots ≡ locations self.old.roots }
        ensures here { at self.new.roots location ≡ Some word }
        ensures others { (l : ℕ) → l ≢ location → at self.new.roots l ≡ at self.old.roots l }
    {
        self.roots.set(location, word)
    }

    /// Takes every word away.
    pub fn clear(&mut self)
        ensures size { locations self.new.roots ≡ locations self.old.roots }
        ensures empty { IsEmpty self.new.roots }
    {
        self.roots.clear()
    }
}
