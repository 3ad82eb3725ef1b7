//! Memos of runs.

ghost use Rattle.std.specs.Prelude.{◌≡◌, IfOk, OnOk};
ghost use Rattle.revision_machine.specs.Laws.{IsDistinct};
ghost use Rattle.revision_machine.specs.PathIndex.{IsEntered, IsIndexed, IsPlace};
ghost use Rattle.revision_machine.specs.PathIndex.{indexed_prop, place_by};
ghost use Rattle.revision_machine.specs.RevisionList.{distinct_prop};
ghost use Rattle.rev_record.specs.Entries.{paths};

use crate::LeafEntry;
use rev_num::Path;
use std::alloc::{AllocError, Global};
use std::collections::BTreeMap;

/// What is kept of the leaf revisions of a run: one entry for each, and their places by path.
/// `record_run` alone makes one. Its map is ordered: no choice of paths can make hashes meet.
#[derive(Drop)]
pub struct Memo {
    pub(crate) entries: Vec<LeafEntry>,
    places: BTreeMap<Vec<u32>, usize>,
    ghost distinct: { IsDistinct (paths entries.items) } by { distinct_prop (paths entries.items) },
    ghost indexed: { IsIndexed places (paths entries.items) } by { indexed_prop places _ },
}

impl Memo {
    /// The memo of these entries, of which no two have the same path.
    pub(crate) fn of(alloc: Global, entries: Vec<LeafEntry>) -> Result<Memo, AllocError>
        requires { IsDistinct (paths entries.items) }
        ensures { IfOk result (λ m. m.entries.items ≡ entries.items) }
    {
        let places = places_of(alloc, entries.as_slice())?;
        Ok(Memo { entries, places })
    }

    /// The place of the entry of the revision with this path, if it has one.
    pub(crate) fn place_of(&self, path: &Path) -> Option<usize>
        ensures { IsPlace path.now (paths self.now.entries.items) result }
    {
        look_up(&self.places, path)
    }
}

/// The place of a path, if it was entered.
fn look_up(places: &BTreeMap<Vec<u32>, usize>, path: &Path) -> Option<usize>
    ensures { result ≡ place_by places.now path.now }
{
    places.get(path.numbers()).copied()
}

/// Enters a path with its place.
fn enter(
    alloc: Global,
    places: &mut BTreeMap<Vec<u32>, usize>,
    path: &Path,
    place: usize,
) -> Result<(), AllocError>
    ensures { OnOk result (IsEntered places.old places.new path.now place) }
{
    let key = Vec::from_slice(alloc, path.numbers())?;
    places.insert(key, place)?;
    Ok(())
}

/// The places of these entries, by path.
fn places_of(alloc: Global, entries: &[LeafEntry]) -> Result<BTreeMap<Vec<u32>, usize>, AllocError>
    ensures { IfOk result (λ places. IsIndexed places (paths entries.now)) }
{
    let mut places = BTreeMap::new(alloc);
    for place in 0..entries.len() {
        enter(alloc, &mut places, &entries[place].path, place)?;
    }
    Ok(places)
}
