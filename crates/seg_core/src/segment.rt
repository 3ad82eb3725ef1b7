//! One segment, and what one holder refers to.
ghost use Rattle.std.specs.Prelude.{◌≡◌, ◌<◌, MatchBool};

use version_map::Delta;

/// How a segment stands.
#[derive(Clone, Copy)]
pub enum Stage {
    Free,
    /// Built by this holder.
    Building(u32),
    /// Over its parent, with a count.
    Live(Option<u32>, u64),
}

/// A segment, and the words that it has, which mean nothing while it is free.
#[derive(Drop)]
pub struct Segment {
    pub stage: Stage,
    pub delta: Delta,
}

/// The references of a holder, which are to one segment.
#[derive(Clone, Copy)]
pub enum References {
    Empty,
    Once(u32),
    Twice(u32),
}

impl Segment {
    ghost use Rattle.version_map.specs.Deltas.{locations};
    ghost use Rattle.seg_core.specs.Core.{building};
    ghost use Rattle.seg_core.specs.Steps.{no_delta, with_word};
    ghost use Rattle.seg_core.specs.Shape.{seg_of, delta_of, shape, IsBuiltBy};

    /// Whether this holder builds it.
    pub fn is_built_by(&self, holder: u32) -> bool
        ensures { MatchBool result (IsBuiltBy (seg_of self.now) holder)
            (¬ (IsBuiltBy (seg_of self.now) holder)) }
    {
        match self.stage {
            Stage::Free => false,
            Stage::Building(builder) => builder == holder,
            Stage::Live(..) => false,
        }
    }

    /// Begins to be built, with no words yet.
    pub fn begin(&mut self, holder: u32)
        ensures here { seg_of self.new ≡ building holder no_delta }
        ensures size { locations self.new.delta ≡ locations self.old.delta }
    {
        self.delta.clear();
        self.stage = Stage::Building(holder);
    }

    /// Gets a word.
    pub fn write(&mut self, location: u32, word: u64)
        requires { location < locations self.old.delta }
        ensures here { delta_of self.new ≡ with_word (delta_of self.old) location word }
        ensures stage { self.new.stage ≡ self.old.stage }
        ensures size { locations self.new.delta ≡ locations self.old.delta }
    {
        self.delta.set(location, word);
    }

    /// Stands otherwise, with the same words.
    pub fn turn(&mut self, stage: Stage)
        ensures here { seg_of self.new ≡ shape stage (delta_of self.old) }
        ensures size { locations self.new.delta ≡ locations self.old.delta }
    {
        self.stage = stage;
    }
}
