//! A table of the places of paths in a list.

ghost use Rattle.std.specs.Prelude.{◌≡◌, [], IfOk, OnOk, OnErr};
ghost use Rattle.revision_machine.specs.PathIndex.{place_by, IsEntered, IsIndexed};
ghost use Rattle.revision_machine.specs.RevisionList.{paths};

use crate::state::RevisionRow;
use rev_num::Path;
use std::alloc::{AllocError, Global};
use std::collections::BTreeMap;

/// A table from paths to places. Its map is ordered: no choice of paths can make hashes meet.
#[derive(Drop)]
pub struct PlaceTable {
    pub(crate) map: BTreeMap<Vec<u32>, usize>,
}

impl PlaceTable {
    /// A table with no paths.
    pub fn new(alloc: Global) -> PlaceTable
        ensures { IsIndexed result.map [] }
    {
        PlaceTable {
            map: BTreeMap::new(alloc),
        }
    }

    /// The place of the path, if it was entered.
    pub fn find(&self, path: &Path) -> Option<usize>
        ensures { result ≡ place_by self.now.map path.now }
    {
        self.map.get(path.numbers()).copied()
    }

    /// Enters the path with its place, also in the stead of another. An error leaves all places as
    /// they were.
    pub fn enter(&mut self, alloc: Global, path: &Path, place: usize) -> Result<(), AllocError>
        ensures ok { OnOk result (IsEntered self.old.map self.new.map path.now place) }
        ensures err { OnErr result (place_by self.new.map ≡ place_by self.old.map) }
    {
        let key = Vec::from_slice(alloc, path.numbers())?;
        self.map.insert(key, place)?;
        Ok(())
    }
}

/// The places of the revisions of this list.
pub fn places_of<R>(alloc: Global, list: &[RevisionRow<R>]) -> Result<PlaceTable, AllocError>
    ensures { IfOk result (λ t. IsIndexed t.map (paths list.now)) }
{
    let mut places = PlaceTable::new(alloc);
    for i in 0..list.len() {
        places.enter(alloc, &list[i].path, i)?;
    }
    Ok(places)
}
