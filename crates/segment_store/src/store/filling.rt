//! How a segment is laid down.
ghost use Rattle.std.specs.Prelude.{◌≡◌, ◌≢◌, ℕ, ◌+◌, ◌<◌, ◌≤◌, []};
ghost use mathlib.Core.Option.{some};
ghost use Rattle.version_map.specs.Deltas.{locations};
ghost use Rattle.segment_store.specs.Places.{view};
ghost use Rattle.segment_store.specs.Store.{look};
ghost use Rattle.segment_store.specs.Base.{filled, IsLaid};
ghost use Rattle.segment_store.specs.Filling.{Filling};
ghost use Rattle.segment_store.specs.Same.{Becomes, IsAttached};

use crate::store::{Place, Store};
use version_map::Delta;

impl Store {
    ghost use Rattle.segment_store.specs.Names.{IsSeatOf, IsDeltaOf, IsSegmentIn, IsInsideIn};

    // Sees to it that a place of the segment that the seat builds has this word. It looks first, as
    // a look costs much less than a store.
    fn lay(&self, seat: &mut Place, segment: usize, i: usize, x: u64)
        requires own { IsSeatOf self.now seat.old × IsInsideIn self.now segment i }
        requires built { (segment ≡ (view seat.old).build) × IsAttached seat.old segment }
        ensures view { Becomes seat.old seat.new (filled (view seat.old) (view seat.new).made) }
        ensures there { IsAttached seat.new segment }
        ensures here { look (view seat.new).made i ≡ some x }
        ensures others { (j : ℕ) → j ≢ i
            → look (view seat.new).made j ≡ look (view seat.old).made j }
    {
        let found = self.adopt(seat, segment, i);
        if found == x {
            return;
        }
        self.put(seat, segment, i, x);
    }

    // Lays down the mask.
    fn lay_mask(&self, seat: &mut Place, segment: usize, delta: &Delta)
        requires own { IsSeatOf self.now seat.old × IsDeltaOf self.now delta.now }
        requires built { IsSegmentIn self.now segment × (segment ≡ (view seat.old).build)
            × (segment + self.now.stride ≤ self.now.words) }
        requires there { IsAttached seat.old segment }
        ensures view { Becomes seat.old seat.new (filled (view seat.old) (view seat.new).made) }
        ensures there { IsAttached seat.new segment }
        ensures laid { (parent : ℕ)
            → Filling segment parent self.now.masks delta.now 0 0 (view seat.old).made
            → Filling segment parent self.now.masks delta.now self.now.masks 0
            (view seat.new).made }
    {
        for k in 0..self.masks {
            self.lay(seat, segment, segment + (2 + k), delta.mask_row(k));
        }
    }

    // Lays down each value that the delta has.
    fn lay_values(&self, seat: &mut Place, segment: usize, delta: &Delta)
        requires own { IsSeatOf self.now seat.old × IsDeltaOf self.now delta.now }
        requires built { IsSegmentIn self.now segment × (segment ≡ (view seat.old).build)
            × (segment + self.now.stride ≤ self.now.words) }
        requires there { IsAttached seat.old segment }
        ensures view { Becomes seat.old seat.new (filled (view seat.old) (view seat.new).made) }
        ensures there { IsAttached seat.new segment }
        ensures laid { (parent : ℕ)
            → Filling segment parent self.now.masks delta.now self.now.masks 0
            (view seat.old).made
            → Filling segment parent self.now.masks delta.now self.now.masks (locations delta.now)
            (view seat.new).made }
    {
        let first = segment + (2 + self.masks);
        let mut from = 0;
        while let Some(l) = delta.next(from) {
            self.put(seat, segment, first + l as usize, delta.word(l));
            from = l + 1;
        }
    }

    // Lays down the parent, the mask, and each value that the delta has.
    pub(super) fn fill(&self, seat: &mut Place, segment: usize, parent: usize, delta: &Delta)
        requires own { IsSeatOf self.now seat.old × IsDeltaOf self.now delta.now }
        requires built { IsSegmentIn self.now segment × (segment ≡ (view seat.old).build)
            × (segment + self.now.stride ≤ self.now.words) × ((view seat.old).made ≡ []) }
        requires there { IsAttached seat.old segment }
        ensures view { Becomes seat.old seat.new (filled (view seat.old) (view seat.new).made) }
        ensures there { IsAttached seat.new segment }
        ensures laid { IsLaid segment parent self.now.stride self.now.masks delta.now
            (view seat.new).made }
    {
        self.put(seat, segment, segment + 1, parent as u64);
        self.lay_mask(seat, segment, delta);
        self.lay_values(seat, segment, delta);
    }
}
