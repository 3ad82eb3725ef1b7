//! A copy of what a hold reads.
ghost use Rattle.std.specs.Prelude.{◌≡◌, ℕ, ◌<◌, length, vec_len, slice_index, IfOk, IfSome};
ghost use Rattle.version_map.specs.Deltas.{at, locations};
ghost use Rattle.version_map.specs.Overlay.{under, Agree};
ghost use Rattle.segment_store.specs.Places.{view};
ghost use Rattle.segment_store.specs.Base.{value};
ghost use Rattle.segment_store.specs.Same.{IsSameSeat};
ghost use Rattle.segment_store.specs.Own.{root_in};

use crate::store::{Place, Store};
use std::alloc::{AllocError, Global};
use version_map::Delta;

impl Store {
    ghost use Rattle.segment_store.specs.Names.{IsSeatOf, IsDeltaOf, RestsIn};

    // Copies the values of the chain where `into` has none. Where several segments have a location,
    // the first one's value counts.
    pub(super) fn absorb_chain(&self, seat: &mut Place, first: usize, depth: u64, into: &mut Delta)
        requires own { IsSeatOf self.now seat.old × IsDeltaOf self.now into.old }
        requires rests { RestsIn self.now first depth (view seat.old) }
        ensures same { IsSameSeat seat.old seat.new }
        ensures size { locations into.new ≡ locations into.old }
        ensures values { Agree (vec_len self.now.initial)
            (under into.new (slice_index self.now.initial.items))
            (under into.old (value self.now.masks self.now.initial.items (view seat.old).chain)) }
    {
        let mut at = first;
        let mut left = depth;
        while left > 0 {
            self.absorb(seat, at, into);
            at = self.word(seat, at, at + 1) as usize;
            left -= 1;
        }
    }

    // The words of a chain's base. It goes down the chain once.
    pub(super) fn copy_chain(
        &self,
        alloc: Global,
        seat: &mut Place,
        first: usize,
        depth: u64,
        locations: u32,
    ) -> Result<Vec<u64>, AllocError>
        requires own { IsSeatOf self.now seat.old × (locations ≡ vec_len self.now.initial) }
        requires rests { RestsIn self.now first depth (view seat.old) }
        ensures same { IsSameSeat seat.old seat.new }
        ensures words { IfOk result (λ v. (vec_len v ≡ vec_len self.now.initial)
            × Agree (vec_len self.now.initial) (slice_index v.items)
            (value self.now.masks self.now.initial.items (view seat.old).chain)) }
    {
        let mut all = Delta::new(alloc, locations)?;
        self.absorb_chain(seat, first, depth, &mut all);
        words_under(alloc, &all, &self.initial)
    }

    // The base under the delta, for a hold with no segment.
    pub(super) fn copy_bare(
        &self,
        alloc: Global,
        own: &Option<Vec<u64>>,
        delta: &Delta,
    ) -> Result<Vec<u64>, AllocError>
        requires { IsDeltaOf self.now delta.now
            × IfSome own.now (λ ws. vec_len ws ≡ vec_len self.now.initial) }
        ensures { IfOk result (λ v. (vec_len v ≡ vec_len self.now.initial)
            × Agree (vec_len self.now.initial) (slice_index v.items)
            (under delta.now (slice_index (root_in self.now.initial own.now)))) }
    {
        match own {
            Some(words) => words_under(alloc, delta, words),
            None => words_under(alloc, delta, &self.initial),
        }
    }
}

// A delta with the same values.
pub(super) fn copy_of(alloc: Global, delta: &Delta) -> Result<Delta, AllocError>
    ensures { IfOk result (λ d. (locations d ≡ locations delta.now)
        × ((l : ℕ) → l < locations delta.now → at d l ≡ at delta.now l)) }
{
    let mut copy = Delta::new(alloc, delta.locations())?;
    for l in 0..delta.locations() {
        match delta.get(l) {
            Some(word) => copy.set(l, word),
            None => {},
        }
    }
    Ok(copy)
}

// The words under the delta.
pub(super) fn words_under(
    alloc: Global,
    delta: &Delta,
    words: &[u64],
) -> Result<Vec<u64>, AllocError>
    requires { length words.now ≡ locations delta.now }
    ensures { IfOk result (λ v. (vec_len v ≡ locations delta.now)
        × Agree (locations delta.now) (slice_index v.items)
        (under delta.now (slice_index words.now))) }
{
    let mut all = Vec::with_capacity(alloc, words.len())?;
    for l in 0..delta.locations() {
        let word = match delta.get(l) {
            Some(word) => word,
            None => words[l as usize],
        };
        all.push_reserved(word);
    }
    Ok(all)
}
