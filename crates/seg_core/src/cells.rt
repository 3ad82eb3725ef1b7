//! The cells of a state: its segments and what its holders refer to.
ghost use Rattle.std.specs.Prelude.{◌≡◌, ◌≢◌, ℕ, ◌<◌, ◌^◌, suc, vec_len, Option, List, Some};
ghost use Rattle.std.specs.Prelude.{None, MatchBool};
ghost use mathlib.Core.Option.{some};
ghost use lib.ListN.{get_elem?};
ghost use Rattle.version_map.specs.Deltas as deltas;
ghost use Rattle.seg_core.specs.declared.segment.Stage.TheVariants as stages;
ghost use Rattle.seg_core.specs.declared.segment.References.{References};
ghost use Rattle.seg_core.specs.declared.segment.Stage.{Stage};
ghost use Rattle.seg_core.specs.declared.segment.Segment.{Segment};
ghost use Rattle.seg_core.specs.Core.{Seg, free, building, At, Has};
ghost use Rattle.seg_core.specs.Steps.{BuildsNone, seg_to, list_to, with_word, no_delta};
ghost use Rattle.seg_core.specs.Shape.{shape, list_of};

use crate::segment::{References, Segment, Stage};

/// How many holders a state has.
pub const HOLDERS: u32 = 65_536;

/// Segments, the references of each holder, and how many locations there are.
#[derive(Drop)]
pub struct Cells {
    pub segments: Vec<Segment>,
    pub holders: Vec<References>,
    pub locations: u32,
    ghost long: { (vec_len segments < 2 ^ 32) × (vec_len holders ≡ 65536) },
    ghost sized: { (i : ℕ) (g : Segment) → get_elem? segments.items i ≡ some g
        → deltas.locations g.delta ≡ locations },
}

impl Cells {
    ghost use Rattle.seg_core.specs.Cells.{core_of};

    /// How the segment stands, where there is one.
    pub fn stage(&self, segment: u32) -> Option<Stage>
        ensures some { (x : Stage) → result ≡ Some x → (d : ℕ → Option ℕ)
            × At (core_of self.now) (suc segment) (shape x d) }
        ensures none { result ≡ None → (x : Seg) → ¬ (At (core_of self.now) (suc segment) x) }
    {
        let at = segment as usize;
        if at >= self.segments.len() {
            return None;
        }
        Some(self.segments[at].stage)
    }

    /// What the holder refers to, where there is such a holder.
    pub fn references(&self, holder: u32) -> Option<References>
        ensures some { (r : References) → result ≡ Some r
            → Has (core_of self.now) holder (list_of r) }
        ensures none { result ≡ None → (xs : List ℕ) → ¬ (Has (core_of self.now) holder xs) }
    {
        let at = holder as usize;
        if at >= self.holders.len() {
            return None;
        }
        Some(self.holders[at])
    }

    /// Whether the holder builds a segment.
    pub fn builds(&self, holder: u32) -> bool
        ensures { MatchBool result (¬ (BuildsNone (core_of self.now) holder))
            (BuildsNone (core_of self.now) holder) }
    {
        for at in 0..self.segments.len() {
            if self.segments[at].is_built_by(holder) {
                return true;
            }
        }
        false
    }

    /// The free segment begins to be built.
    pub fn begin(&mut self, segment: u32, holder: u32)
        requires { At (core_of self.old) (suc segment) free }
        ensures { core_of self.new ≡ seg_to (core_of self.old) (suc segment)
            (building holder no_delta) }
    {
        self.segments[segment as usize].begin(holder);
    }

    /// The segment that is built gets a word.
    pub fn write(&mut self, segment: u32, location: u32, word: u64)
        requires built { (h : ℕ) × (d : ℕ → Option ℕ)
            × At (core_of self.old) (suc segment) (building h d) }
        requires inside { location < self.old.locations }
        ensures { (h : ℕ) (d : ℕ → Option ℕ) → At (core_of self.old) (suc segment) (building h d)
            → core_of self.new
            ≡ seg_to (core_of self.old) (suc segment) (building h (with_word d location word)) }
    {
        self.segments[segment as usize].write(location, word);
    }

    /// The segment stands otherwise, with the same words where it was not free.
    pub fn turn(&mut self, segment: u32, stage: Stage)
        requires { (x : Stage) × (d : ℕ → Option ℕ)
            × At (core_of self.old) (suc segment) (shape x d) }
        ensures words { (x : Stage) (d : ℕ → Option ℕ) → x ≢ stages.Free
            → At (core_of self.old) (suc segment) (shape x d)
            → core_of self.new ≡ seg_to (core_of self.old) (suc segment) (shape stage d) }
        ensures free { stage ≡ stages.Free
            → core_of self.new ≡ seg_to (core_of self.old) (suc segment) free }
    {
        self.segments[segment as usize].turn(stage);
    }

    /// The holder refers to other segments.
    pub fn refer(&mut self, holder: u32, references: References)
        requires { holder < 65536 }
        ensures { core_of self.new ≡ list_to (core_of self.old) holder (list_of references) }
    {
        self.holders[holder as usize] = references;
    }
}
