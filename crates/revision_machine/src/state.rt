//! The states of a run: the revisions with their paths, local states and marks, or Twice.

ghost use Rattle.std.specs.Prelude.{◌≡◌, None, MatchOption};
ghost use Rattle.revision_machine.specs.Laws.{IsDistinct};
ghost use Rattle.revision_machine.specs.ListStep.{IsAt};
ghost use Rattle.revision_machine.specs.PathIndex.{IsIndexed, indexed_prop};
ghost use Rattle.revision_machine.specs.RevisionList.{globe, paths, distinct_prop};

use crate::place_table::PlaceTable;
use rev_num::Path;

/// A revision: its path, its local state, and whether it is marked Joined.
#[derive(Drop)]
pub struct RevisionRow<R> {
    pub path: Path,
    pub state: R,
    pub joined: bool,
}

/// The revisions of a state, in the order of their forks, and the places of their paths. No two
/// have the same path.
#[derive(Drop)]
pub struct RevisionRows<R> {
    pub list: Vec<RevisionRow<R>>,
    pub(crate) places: PlaceTable,
    ghost distinct: { IsDistinct (paths list.items) } by { distinct_prop (paths list.items) },
    ghost indexed: { IsIndexed places.map (paths list.items) } by { indexed_prop places.map _ },
}

impl<R> RevisionRows<R> {
    /// The place in the list of the revision with this path, or none where there is no such one.
    pub fn find(&self, path: &Path) -> Option<usize>
        ensures { MatchOption result (globe self.now.list.items path.now ≡ None)
            (λ i. IsAt self.now.list.items i path.now) }
    {
        self.places.find(path)
    }
}

/// A global state.
#[derive(Drop)]
pub enum GlobalState<R> {
    /// A revision was joined a second time.
    Twice,
    /// These revisions.
    Live(RevisionRows<R>),
}
