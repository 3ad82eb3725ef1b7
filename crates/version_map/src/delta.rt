//! A value or none for each location.
ghost use Rattle.std.specs.Prelude.{◌≡◌, ◌≢◌, ℕ, ◌+◌, ◌-◌, ◌*◌, ◌<◌, ◌≤◌, ◌^◌};
ghost use Rattle.std.specs.Prelude.{drop, length, min, vec_len, replicate, slice_index};
ghost use Rattle.std.specs.Prelude.{Some, None, IfOk, MatchBool, MatchOption};
ghost use Rattle.version_map.specs.Masks.{rows, bit_in, chosen, IsSummary, summary_prop};

use crate::one_word::{next_bit, with_bit, without_bit};
use std::alloc::{AllocError, Global};

/// A value or none for each location. A bit of the mask says whether a location has one, and the
/// words of locations that have none mean nothing.
#[derive(Drop)]
pub struct Delta {
    // The word of each location, and the mask behind them.
    cells: Vec<u64>,
    count: u32,
    // A bit for each of the first 64 rows of the mask, 1 where the row is not 0: so for all rows
    // where there are at most 4,096 locations.
    summary: u64,
    ghost sized: { (vec_len cells ≡ count + rows count) × (count < 2 ^ 32) },
    // No bit is set beyond the last location.
    ghost clean: { (l : ℕ) → count ≤ l → bit_in (drop count cells.items) l ≡ 0 },
    ghost summed: { IsSummary summary (drop count cells.items) } by { summary_prop _ _ },
}

impl Delta {
    ghost use Rattle.version_map.specs.Deltas.{at, locations, mask_of};
    ghost use Rattle.version_map.specs.Deltas.{HasRow, IsEmpty};
    ghost use Rattle.version_map.specs.Deltas.{AreEmpty, AreEmptyRows, IsNext, IsNextRow};

    /// No value, for `count` locations.
    pub fn new(alloc: Global, count: u32) -> Result<Delta, AllocError>
        ensures { IfOk result (λ d. (locations d ≡ count) × IsEmpty d) }
    {
        Ok(Delta {
            cells: zeros(alloc, count as usize + mask_rows(count))?,
            count,
            summary: 0,
        })
    }

    /// How many locations there are.
    pub fn locations(&self) -> u32
        ensures { result ≡ locations self.now }
    {
        self.count
    }

    /// The value of the location, where it has one.
    pub fn get(&self, location: u32) -> Option<u64>
        requires { location < locations self.now }
        ensures { result ≡ at self.now location }
    {
        let at = location as usize;
        if self.mask_row(at / 64) >> (at % 64) & 1 == 1 {
            Some(self.cells[at])
        } else {
            None
        }
    }

    /// The value of a location that has one.
    #[inline(always)]
    pub fn word(&self, location: u32) -> u64
        requires inside { location < locations self.now }
        requires some { at self.now location ≢ None }
        ensures { at self.now location ≡ Some result }
    {
        self.cells[location as usize]
    }

    /// Gives the location a value.
    pub fn set(&mut self, location: u32, word: u64)
        requires { location < locations self.old }
        ensures size { locations self.new ≡ locations self.old }
        ensures here { at self.new location ≡ Some word }
        ensures others { (l : ℕ) → l ≢ location → at self.new l ≡ at self.old l }
    {
        let at = location as usize;
        self.cells[self.count as usize + at / 64] |= 1 << (at % 64);
        self.cells[at] = word;
        self.summary = with_bit(self.summary, at / 64);
    }

    /// Gives the 64 locations of a row of the mask these words.
    pub fn set_row(&mut self, row: usize, words: &[u64])
        requires row { 64 * row + 64 ≤ locations self.old }
        requires words { length words.now ≡ 64 }
        ensures size { locations self.new ≡ locations self.old }
        ensures here { (k : ℕ) → k < 64
            → at self.new (64 * row + k) ≡ Some (slice_index words.now k) }
        ensures before { (l : ℕ) → l < 64 * row → at self.new l ≡ at self.old l }
        ensures after { (l : ℕ) → 64 * row + 64 ≤ l → at self.new l ≡ at self.old l }
    {
        let first = 64 * row;
        let mask = self.count as usize + row;
        self.cells[mask] = u64::MAX;
        self.cells[first..first + 64].copy_from_slice(words);
        self.summary = with_bit(self.summary, row);
    }

    /// The words of the locations of a row of the mask, 64 of them but in the last row. Those of
    /// locations that have no value mean nothing.
    pub fn row_words(&self, row: usize) -> &[u64]
        requires { row < rows (locations self.now) }
        ensures length { length result.now ≡ min 64 (locations self.now - 64 * row) }
        ensures words { (k : ℕ) → k < length result.now → at self.now (64 * row + k)
            ≡ chosen (bit_in (mask_of self.now) (64 * row + k)) (slice_index result.now k) }
    {
        let first = 64 * row;
        let end = (self.count as usize).min(first + 64);
        &self.cells[first..end]
    }

    /// Takes every value away. Rows of the mask that have none are passed over.
    pub fn clear(&mut self)
        ensures size { locations self.new ≡ locations self.old }
        ensures empty { IsEmpty self.new }
    {
        let mut from = 0;
        while let Some(row) = self.next_row(from) {
            self.clear_row(row);
            from = row + 1;
        }
    }

    /// Takes the values of a row of the mask away.
    fn clear_row(&mut self, row: usize)
        requires { row < rows (locations self.old) }
        ensures size { locations self.new ≡ locations self.old }
        ensures here { slice_index (mask_of self.new) row ≡ 0 }
        ensures others { (r : ℕ) → r ≢ row
            → slice_index (mask_of self.new) r ≡ slice_index (mask_of self.old) r }
    {
        self.cells[self.count as usize + row] = 0;
        self.summary = without_bit(self.summary, row);
    }

    /// Whether no location has a value.
    pub fn is_empty(&self) -> bool
        ensures { MatchBool result (IsEmpty self.now) (¬ IsEmpty self.now) }
    {
        match self.next(0) {
            Some(_) => false,
            None => true,
        }
    }

    /// The least location from this one on that has a value, if one has. Rows of the mask that have
    /// none are passed over.
    #[inline(always)]
    pub fn next(&self, from: u32) -> Option<u32>
        ensures { MatchOption result (AreEmpty self.now from (locations self.now))
            (IsNext self.now from) }
    {
        if from >= self.count {
            return None;
        }
        let row = from as usize / 64;
        match next_bit(self.mask_row(row), from as usize % 64) {
            Some(k) => Some((64 * row + k) as u32),
            None => self.next_behind(row),
        }
    }

    /// The least location behind a row of the mask that has a value, if one has.
    fn next_behind(&self, row: usize) -> Option<u32>
        requires { row < rows (locations self.now) }
        ensures { MatchOption result
            (AreEmpty self.now (64 * (row + 1)) (locations self.now))
            (IsNext self.now (64 * (row + 1))) }
    {
        let Some(next) = self.next_row(row + 1) else {
            return None;
        };
        let Some(k) = next_bit(self.mask_row(next), 0) else {
            return None;
        };
        Some((64 * next + k) as u32)
    }

    /// The least row of the mask from this one on that is not 0, so that some location of it has a
    /// value, if there is one. Of the first 64 rows it takes one look at a word, and of later ones a
    /// look at each.
    #[inline(always)]
    pub fn next_row(&self, from: usize) -> Option<usize>
        ensures { MatchOption result (AreEmptyRows self.now from (rows (locations self.now)))
            (IsNextRow self.now from) }
    {
        if from >= 64 {
            return self.look_for_row(from);
        }
        match next_bit(self.summary, from) {
            Some(row) => Some(row),
            None => self.look_for_row(64),
        }
    }

    /// The same, by a look at each row.
    fn look_for_row(&self, from: usize) -> Option<usize>
        ensures { MatchOption result (AreEmptyRows self.now from (rows (locations self.now)))
            (IsNextRow self.now from) }
    {
        for row in from..mask_rows(self.count) {
            let bits = self.mask_row(row);
            if bits != 0 {
                return Some(row);
            }
        }
        None
    }

    /// Whether each of the 64 locations of a row of the mask has a value.
    pub fn has_row(&self, row: usize) -> bool
        requires { 64 * row + 64 ≤ locations self.now }
        ensures { MatchBool result (HasRow self.now row) (¬ HasRow self.now row) }
    {
        self.mask_row(row) == u64::MAX
    }

    /// The bits of 64 locations from `64 * row` on, the lowest first, 1 where a location has a
    /// value.
    pub fn mask_row(&self, row: usize) -> u64
        requires { row < rows (locations self.now) }
        ensures { result ≡ slice_index (mask_of self.now) row }
    {
        self.cells[self.count as usize + row]
    }
}

/// How many words have a bit for each location.
pub fn mask_rows(locations: u32) -> usize
    ensures { result ≡ rows locations }
{
    (locations as usize).div_ceil(64)
}

fn zeros(alloc: Global, n: usize) -> Result<Vec<u64>, AllocError>
    ensures { IfOk result (λ v. v.items ≡ replicate n 0) }
{
    vec![in alloc; 0; n]
}
