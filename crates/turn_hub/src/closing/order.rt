//! The schedule of a run, apart from its ends.
ghost use Rattle.std.specs.Prelude.{◌≡◌};

use crate::closing::HubRun;
use atomic_table::Badge;
use hub_core::{HubState, Revision, Sight};

/// The schedule of a run that a hub kept, without the ends, so that it borrows nothing. It is made
/// of a `HubRun` alone. It tells where the run began, and what its snapshots belonged to.
#[derive(Drop)]
pub struct HubSchedule<S> {
    numbers: Vec<u32>,
    forkers: Vec<u32>,
    state: HubState,
    witness: Badge<Sight<S>>,
}

impl<S> HubSchedule<S> {
    /// The numbers of the revisions in the order of their legs.
    pub fn numbers(&self) -> &[u32]
        ensures { result.now ≡ self.now.numbers.items }
    {
        self.numbers.as_slice()
    }

    /// By number, the revision that forked it, and 0 for the first.
    pub fn forkers(&self) -> &[u32]
        ensures { result.now ≡ self.now.forkers.items }
    {
        self.forkers.as_slice()
    }

    /// Which halt was entered first, if any.
    pub fn state(&self) -> HubState
        ensures { result ≡ self.now.state }
    {
        self.state
    }
}

impl<L: Revision> HubRun<L> {
    /// The schedule of the run, and by number the ends that were handed in.
    pub fn into_schedule(self) -> (HubSchedule<L::State>, Vec<Option<L::End>>)
        ensures numbers { result.0.numbers ≡ self.schedule }
        ensures forkers { result.0.forkers ≡ self.forkers }
        ensures state { result.0.state ≡ self.state }
        ensures witness { result.0.witness ≡ self.witness }
        ensures ends { result.1 ≡ self.ends }
    {
        let HubRun {
            schedule,
            ends,
            forkers,
            state,
            witness,
        } = self;
        let order = HubSchedule {
            numbers: schedule,
            forkers,
            state,
            witness,
        };
        (order, ends)
    }
}
