//! A table from paths to numbers.

ghost use Rattle.std.specs.Prelude.{◌≡◌, [], OnOk};
ghost use Rattle.revision_machine.specs.PathIndex.{IsEntered, IsIndexed, place_by};

use rev_num::Path;
use std::alloc::{AllocError, Global};
use std::collections::BTreeMap;

/// A table from paths to numbers, by an ordered map and not by hashes, which could collide.
#[derive(Drop)]
pub struct PathTable {
    pub map: BTreeMap<Vec<u32>, usize>,
}

impl PathTable {
    /// A table with no paths.
    #[tactic(auto, using(revision_machine::proofs::PathIndex::indexed_none))]
    pub fn new(alloc: Global) -> PathTable
        ensures { IsIndexed result.map [] }
    {
        PathTable {
            map: BTreeMap::new(alloc),
        }
    }

    /// The number of the path.
    pub fn find(&self, path: &Path) -> Option<usize>
        ensures { result ≡ place_by self.now.map path.now }
    {
        self.map.get(path.numbers()).copied()
    }

    /// Enters the path with its number, in place of one that it had.
    pub fn enter(&mut self, alloc: Global, path: &Path, number: usize) -> Result<(), AllocError>
        ensures { OnOk result (IsEntered self.old.map self.new.map path.now number) }
    {
        let key = Vec::from_slice(alloc, path.numbers())?;
        self.map.insert(key, number)?;
        Ok(())
    }
}
