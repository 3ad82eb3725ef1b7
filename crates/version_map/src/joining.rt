//! What a joiner takes over of a revision that is done.

ghost use Rattle.std.specs.Prelude.{◌≡◌, ◌<◌, ◌≤◌, ◌+◌, ◌^◌, ℕ, Bool, true, false, All, IfErr, IfOk, IfSome, length};
ghost use Rattle.rev_num.specs.declared.value.NumFault.{NumFault};
ghost use Rattle.version_map.specs.Ascending.{IsAscending};
ghost use Rattle.version_map.specs.Composing.{Merges, TrapsAtLeast, composed, entries};
ghost use Rattle.version_map.specs.Composing.{IsComposed};
ghost use Rattle.version_map.specs.Eights.{merged_eight};
ghost use Rattle.version_map.specs.Parts.{HasPut, IsPart, TrapsFrom};

use crate::eights::{eight_roots, eight_values, eight_words, follow, put_eight};
use crate::end::{EndValue, Written};
use rev_num::NumFault;

/// The merges of all locations: that of a versioned location gives the joined word, that of a
/// cumulative one the value of its declared merge.
pub trait MergeBy {
    // How many locations there are.
    ghost size: { Self → ℕ };

    // The merge of each.
    ghost merges: { Self → Merges ℕ };

    // Whether the eight locations from this one on are merged at once.
    ghost row: { Self → ℕ → Bool };

    /// The merge of the joiner's, the joinee's and the root's word.
    fn merge(&mut self, location: u32, main: u64, join: u64, root: u64) -> Result<u64, NumFault>
        requires { location < size self.old }
        ensures value { result ≡ merges self.old location main join root }
        ensures size { size self.new ≡ size self.old }
        ensures merges { merges self.new ≡ merges self.old }
        ensures row { row self.new ≡ row self.old };

    /// Whether the eight locations from this one on are merged at once.
    fn row_at(&self, first: u32) -> bool
        ensures { result ≡ row self.now first };

    /// The merges of eight locations, `first` and the next seven: none where they are not merged
    /// at once, and where one of the eight merges faults.
    fn merge_eight(
        &mut self,
        first: u32,
        main: [u64; 8],
        join: [u64; 8],
        root: [u64; 8],
    ) -> Option<[u64; 8]>
        requires within { first + 8 ≤ size self.old }
        requires short { first + 8 ≤ 2 ^ 32 }
        ensures value { result
            ≡ merged_eight (row self.old first) (merges self.old) first main join root }
        ensures size { size self.new ≡ size self.old }
        ensures merges { merges self.new ≡ merges self.old }
        ensures row { row self.new ≡ row self.old }
    {
        if !self.row_at(first) {
            return None;
        }
        let mut values = [0u64; 8];
        for k in 0..8usize {
            match self.merge(first + k as u32, main[k], join[k], root[k]) {
                Ok(value) => values[k] = value,
                Err(_) => return None,
            }
        }
        Some(values)
    }

    /// Puts the merges of written locations from this place on, behind one another, as far as it
    /// knows to merge them faster than by `merge_eight` or one by one, and tells of how many locations
    /// that is. By default there are none.
    fn merge_run(
        &mut self,
        mains: &[u64],
        written: &[Written],
        at: usize,
        values: &mut [u64],
    ) -> usize
        requires mains { length mains.now ≡ length written.now }
        requires values { length values.old ≡ length written.now }
        requires ascending { IsAscending written.now }
        requires within { All (λ w. w.location < size self.old) written.now }
        requires here { at < length written.now }
        ensures length { length values.new ≡ length values.old }
        ensures inside { at + result ≤ length written.now }
        ensures put { HasPut (merges self.old) mains.now written.now at result
            values.old values.new }
        ensures size { size self.new ≡ size self.old }
        ensures merges { merges self.new ≡ merges self.old }
        ensures row { row self.new ≡ row self.old }
    {
        0
    }
}

/// The least location whose merge faults, and how.
#[derive(Clone, Copy)]
pub struct MergeTrap {
    pub location: u32,
    pub fault: NumFault,
}

/// Puts the joiner's new words at the locations that the joinee wrote into `values`, in the order
/// of `end.written`. `mains` are the joiner's words there before. The error is the least location
/// whose merge faults, after which nothing is said of `values`.
///
/// Eight written locations that follow each other and are merged at once go by eight; an eight
/// with a fault goes one by one, so that its first fault is told. Behind a location that is merged
/// alone the next seven go one by one with no question.
pub fn compose<M: MergeBy>(
    mains: &[u64],
    end: &EndValue,
    merges: &mut M,
    values: &mut [u64],
) -> Result<(), MergeTrap>
    requires mains { length mains.now ≡ length end.now.written }
    requires values { length values.old ≡ length end.now.written }
    requires within { All (λ w. w.location < M.size merges.old) end.now.written }
    ensures composed { IsComposed
        (composed (M.merges merges.old) mains.now (entries end.now.written)) result values.new }
    ensures least { TrapsAtLeast (M.merges merges.old) mains.now end.now.written result }
    ensures size { M.size merges.new ≡ M.size merges.old }
    ensures merges { M.merges merges.new ≡ M.merges merges.old }
{
    let written = end.written.as_slice();
    let mut at = 0;
    while at < written.len() {
        match compose_next(mains, written, at, merges, values) {
            Ok(many) => at += many,
            Err(trap) => return Err(trap),
        }
    }
    Ok(())
}

/// Puts the new words of the next locations, and tells of how many. A run that the merges know goes
/// first, or else an eight at once. Where this location is merged alone, up to eight go one by one
/// with no question.
fn compose_next<M: MergeBy>(
    mains: &[u64],
    written: &[Written],
    at: usize,
    merges: &mut M,
    values: &mut [u64],
) -> Result<usize, MergeTrap>
    requires mains { length mains.now ≡ length written.now }
    requires values { length values.old ≡ length written.now }
    requires ascending { IsAscending written.now }
    requires within { All (λ w. w.location < M.size merges.old) written.now }
    requires here { at < length written.now }
    ensures length { length values.new ≡ length values.old }
    ensures put { IfOk result (λ n. (0 < n) × (at + n ≤ length written.now)
        × HasPut (M.merges merges.old) mains.now written.now at n values.old values.new) }
    ensures trap { IfErr result (TrapsFrom (M.merges merges.old) mains.now written.now at) }
    ensures size { M.size merges.new ≡ M.size merges.old }
    ensures merges { M.merges merges.new ≡ M.merges merges.old }
{
    let run = merges.merge_run(mains, written, at, values);
    if run > 0 {
        return Ok(run);
    }
    if !merges.row_at(written[at].location) {
        let many = (written.len() - at).min(8);
        compose_ones(mains, written, at, many, merges, values)?;
        return Ok(many);
    }
    if compose_eight(mains, written, at, merges, values) {
        return Ok(8);
    }
    compose_ones(mains, written, at, 1, merges, values)?;
    Ok(1)
}

/// Puts the new words of so many locations from this place on, one by one, up to the first whose
/// merge faults.
fn compose_ones<M: MergeBy>(
    mains: &[u64],
    written: &[Written],
    at: usize,
    many: usize,
    merges: &mut M,
    values: &mut [u64],
) -> Result<(), MergeTrap>
    requires mains { length mains.now ≡ length written.now }
    requires values { length values.old ≡ length written.now }
    requires within { All (λ w. w.location < M.size merges.old) written.now }
    requires here { at + many ≤ length written.now }
    ensures length { length values.new ≡ length values.old }
    ensures put { IfOk result (λ _. HasPut (M.merges merges.old) mains.now written.now at many
        values.old values.new) }
    ensures trap { IfErr result (TrapsFrom (M.merges merges.old) mains.now written.now at) }
    ensures size { M.size merges.new ≡ M.size merges.old }
    ensures merges { M.merges merges.new ≡ M.merges merges.old }
{
    for k in 0..many {
        let w = written[at + k];
        match merges.merge(w.location, mains[at + k], w.value, w.root) {
            Ok(value) => values[at + k] = value,
            Err(fault) => {
                return Err(MergeTrap {
                    location: w.location,
                    fault,
                })
            }
        }
    }
    Ok(())
}

/// Puts the new words of eight locations from this place on, where they follow each other, are
/// merged at once, and none of their merges faults; and tells whether it did.
fn compose_eight<M: MergeBy>(
    mains: &[u64],
    written: &[Written],
    at: usize,
    merges: &mut M,
    values: &mut [u64],
) -> bool
    requires mains { length mains.now ≡ length written.now }
    requires values { length values.old ≡ length written.now }
    requires ascending { IsAscending written.now }
    requires within { All (λ w. w.location < M.size merges.old) written.now }
    ensures length { length values.new ≡ length values.old }
    ensures kept { result ≡ false → values.new ≡ values.old }
    ensures put { result ≡ true → (at + 8 ≤ length written.now)
        × HasPut (M.merges merges.old) mains.now written.now at 8 values.old values.new }
    ensures size { M.size merges.new ≡ M.size merges.old }
    ensures merges { M.merges merges.new ≡ M.merges merges.old }
{
    match merge_row(mains, written, at, merges) {
        Some(eight) => {
            put_eight(values, at, eight);
            true
        },
        None => false,
    }
}

/// The new words of eight locations from this place on, where they follow each other, are merged
/// at once, and none of their merges faults.
fn merge_row<M: MergeBy>(
    mains: &[u64],
    written: &[Written],
    at: usize,
    merges: &mut M,
) -> Option<[u64; 8]>
    requires mains { length mains.now ≡ length written.now }
    requires ascending { IsAscending written.now }
    requires within { All (λ w. w.location < M.size merges.old) written.now }
    ensures row { IfSome result (λ eight. (at + 8 ≤ length written.now)
        × IsPart (M.merges merges.old) mains.now written.now at 8 eight) }
    ensures size { M.size merges.new ≡ M.size merges.old }
    ensures merges { M.merges merges.new ≡ M.merges merges.old }
{
    if written.len() < 8 || at > written.len() - 8 {
        return None;
    }
    let first = written[at].location;
    if !follow(written, at, first, 8) {
        return None;
    }
    let main = eight_words(mains, at);
    let join = eight_values(written, at);
    let root = eight_roots(written, at);
    merges.merge_eight(first, main, join, root)
}
