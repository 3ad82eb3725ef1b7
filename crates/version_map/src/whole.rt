//! A snapshot with all words of its own.
ghost use Rattle.std.specs.Prelude.{◌≡◌, ◌<◌, []};

use crate::delta::Delta;
use crate::snapshot::{Collapsed, How, Snapshot};
use std::alloc::{AllocError, Global};

/// A snapshot with all words of its own: each fork copies them, and no collapse has a part to take.
#[derive(Drop)]
pub struct Whole {
    words: Vec<u64>,
}

impl Whole {
    /// The snapshot whose base is these words.
    pub fn new(words: Vec<u64>) -> Whole
        ensures { result.words ≡ words }
    {
        Whole { words }
    }

    /// The base.
    pub fn words(&self) -> &[u64]
        ensures { result.now ≡ self.now.words.items }
    {
        self.words.as_slice()
    }
}

impl Snapshot for Whole {
    ghost use Rattle.std.specs.Prelude.{vec_len, slice_index};
    ghost use Rattle.version_map.specs.declared.snapshot.Collapsed.TheVariants as collapsed;
    ghost use Rattle.version_map.specs.declared.snapshot.How.TheVariants.{Copied};

    type Spent = ();

    ghost size = { λ w. vec_len w.words };

    ghost base = { λ w. slice_index w.words.items };

    ghost depth = { λ _. 0 };

    ghost group = { λ _. [] };

    ghost answered = { λ _ c. c ≡ collapsed.Base };

    // Copied alone.
    ghost hows = { λ h. h ≡ Copied };

    ghost spent_group = { λ _. [] };

    fn read(&mut self, location: u32) -> u64 {
        self.words[location as usize]
    }

    fn fork(&mut self, alloc: Global, delta: &mut Delta) -> Result<(Whole, How), AllocError> {
        let mut words = Vec::new(alloc);
        for location in 0..delta.locations() {
            let word = match delta.get(location) {
                Some(word) => word,
                None => self.words[location as usize],
            };
            words.push(word)?;
        }
        Ok((Whole { words }, How::Copied))
    }

    fn collapse(&mut self, into: &mut Delta) -> Collapsed {
        Collapsed::Base
    }

    fn release(self) {}
}
