//! How a delta takes in the values of a segment, by rows of 64 locations.
ghost use Rattle.std.specs.Prelude.{◌≡◌, ℕ, ◌+◌, ◌*◌, ◌<◌, ◌≤◌};
ghost use Rattle.std.specs.Prelude.{MatchBool, length, slice_index};
ghost use Rattle.version_map.specs.Deltas.{at, locations};
ghost use Rattle.segment_store.specs.Places.{view};
ghost use Rattle.segment_store.specs.Filling.{IsWhole};
ghost use Rattle.segment_store.specs.Same.{IsSameSeat, IsWord};

use crate::store::{Place, Store};
use version_map::{Delta, next_bit};

impl Store {
    ghost use Rattle.segment_store.specs.Names.{IsSeatOf, IsDeltaOf, IsTakenIn, IsLinkIn};

    // Reads 64 words of a segment from this one on.
    fn read_row(&self, seat: &mut Place, segment: usize, from: usize, words: &mut [u64])
        requires own { IsSeatOf self.now seat.old × IsLinkIn self.now seat.old segment }
        requires inside { (segment < from) × (from + 64 ≤ segment + self.now.stride) }
        requires many { length words.old ≡ 64 }
        ensures same { IsSameSeat seat.old seat.new }
        ensures many { length words.new ≡ 64 }
        ensures words { (k : ℕ) → k < 64 → IsWord seat.old (from + k) (slice_index words.new k) }
    {
        for k in 0..64usize {
            words[k] = self.word(seat, segment, from + k);
        }
    }

    // Whether a row is one of 64 locations, its mask word has all bits, and `into` has no value there.
    fn is_whole(&self, row: usize, bits: u64, into: &Delta) -> bool
        requires { IsDeltaOf self.now into.now × (row < self.now.masks) }
        ensures { MatchBool result (IsWhole bits row into.now) (¬ IsWhole bits row into.now) }
    {
        bits == u64::MAX && 64 * row + 64 <= self.initial.len() && into.mask_row(row) == 0
    }

    // Copies a row that the segment has all values of, and `into` none.
    fn absorb_whole(&self, seat: &mut Place, segment: usize, row: usize, into: &mut Delta)
        requires own { IsSeatOf self.now seat.old × IsDeltaOf self.now into.old
            × (segment + self.now.stride ≤ self.now.words) }
        requires link { IsLinkIn self.now seat.old segment }
        requires all { (bits : ℕ) × IsWord seat.old (segment + (2 + row)) bits
            × IsWhole bits row into.old }
        ensures same { IsSameSeat seat.old seat.new }
        ensures size { locations into.new ≡ locations into.old }
        ensures before { (l : ℕ) → l < 64 * row → at into.new l ≡ at into.old l }
        ensures after { (l : ℕ) → 64 * row + 64 ≤ l → at into.new l ≡ at into.old l }
        ensures values { (l : ℕ) → 64 * row ≤ l → l < 64 * row + 64
            → IsTakenIn self.now segment l (view seat.old).chain (at into.old l) (at into.new l) }
    {
        let mut words = [0u64; 64];
        let from = segment + (2 + self.masks + 64 * row);
        self.read_row(seat, segment, from, &mut words);
        into.set_row(row, &words);
    }

    // Copies the values of one row of the mask, which is `bits`, where `into` has none. It goes from
    // bit to bit of those that `into` lacks.
    fn absorb_cells(
        &self,
        seat: &mut Place,
        segment: usize,
        row: usize,
        bits: u64,
        into: &mut Delta,
    )
        requires own { IsSeatOf self.now seat.old × IsDeltaOf self.now into.old
            × (segment + self.now.stride ≤ self.now.words) }
        requires link { IsLinkIn self.now seat.old segment }
        requires inside { row < self.now.masks }
        requires bits { IsWord seat.old (segment + (2 + row)) bits }
        ensures same { IsSameSeat seat.old seat.new }
        ensures size { locations into.new ≡ locations into.old }
        ensures before { (l : ℕ) → l < 64 * row → at into.new l ≡ at into.old l }
        ensures after { (l : ℕ) → 64 * row + 64 ≤ l → at into.new l ≡ at into.old l }
        ensures values { (l : ℕ) → 64 * row ≤ l → l < 64 * row + 64 → l < locations into.old
            → IsTakenIn self.now segment l (view seat.old).chain (at into.old l) (at into.new l) }
    {
        let first = 64 * row;
        let missing = bits & !into.mask_row(row);
        let mut from = 0;
        while let Some(k) = next_bit(missing, from) {
            let l = first + k;
            if l >= self.initial.len() {
                return;
            }
            let word = self.word(seat, segment, segment + (2 + self.masks + l));
            into.set(l as u32, word);
            from = k + 1;
        }
    }

    // Copies the values of one row of the mask where `into` has none. A row of 0 is passed over.
    pub(super) fn absorb_row(&self, seat: &mut Place, segment: usize, row: usize, into: &mut Delta)
        requires own { IsSeatOf self.now seat.old × IsDeltaOf self.now into.old
            × (segment + self.now.stride ≤ self.now.words) }
        requires link { IsLinkIn self.now seat.old segment }
        requires inside { row < self.now.masks }
        ensures same { IsSameSeat seat.old seat.new }
        ensures size { locations into.new ≡ locations into.old }
        ensures before { (l : ℕ) → l < 64 * row → at into.new l ≡ at into.old l }
        ensures after { (l : ℕ) → 64 * row + 64 ≤ l → at into.new l ≡ at into.old l }
        ensures values { (l : ℕ) → 64 * row ≤ l → l < 64 * row + 64 → l < locations into.old
            → IsTakenIn self.now segment l (view seat.old).chain (at into.old l) (at into.new l) }
    {
        let bits = self.word(seat, segment, segment + (2 + row));
        if bits == 0 {
            return;
        }
        if self.is_whole(row, bits, into) {
            self.absorb_whole(seat, segment, row, into);
        } else {
            self.absorb_cells(seat, segment, row, bits, into);
        }
    }

    // Copies the segment's values where `into` has none.
    pub(super) fn absorb(&self, seat: &mut Place, segment: usize, into: &mut Delta)
        requires own { IsSeatOf self.now seat.old × IsDeltaOf self.now into.old
            × (segment + self.now.stride ≤ self.now.words) }
        requires link { IsLinkIn self.now seat.old segment }
        ensures same { IsSameSeat seat.old seat.new }
        ensures size { locations into.new ≡ locations into.old }
        ensures values { (l : ℕ) → l < locations into.old
            → IsTakenIn self.now segment l (view seat.old).chain (at into.old l) (at into.new l) }
    {
        for row in 0..self.masks {
            self.absorb_row(seat, segment, row, into);
        }
    }
}
