//! A run as one of another machine.
ghost use Rattle.std.specs.Prelude.{◌≡◌};
ghost use Rattle.turn_hub.specs.Closing.{IsSameMachine, HaveSameEnds};

use crate::closing::HubRun;
use hub_core::Revision;

impl<L: Revision> HubRun<L> {
    /// The same run, as one of a machine whose states step, fork and join alike and have the same
    /// ends. So a run can outlive what the runners and joiners of its machine borrow.
    pub fn as_of<N: Revision<State = L::State, End = L::End>>(self) -> HubRun<N>
        requires machine { IsSameMachine L.machine N.machine }
        requires ends { HaveSameEnds L.ends N.ends }
        ensures schedule { result.schedule ≡ self.schedule }
        ensures ends { result.ends ≡ self.ends }
        ensures forkers { result.forkers ≡ self.forkers }
        ensures state { result.state ≡ self.state }
        ensures witness { result.witness ≡ self.witness }
    {
        let HubRun {
            schedule,
            ends,
            forkers,
            state,
            witness,
        } = self;
        HubRun {
            schedule,
            ends,
            forkers,
            state,
            witness,
        }
    }
}
