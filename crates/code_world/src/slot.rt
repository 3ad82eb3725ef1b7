//! What a world has of a revision.

use rev_vm::{AtJoin, Runner};
use version_map::{EndValue, Whole};

/// What a world has of a revision. Running revisions and joiners may not be let go by themselves:
/// `give_up` ends them.
pub enum WorldSlot {
    /// Between two events.
    Running(Runner<Whole>),
    /// At a join, behind the instructions of its leg.
    Standing(AtJoin<Whole>),
    /// It has ended, and this is what it leaves.
    Ended(EndValue),
    /// It was joined, and this is what it left.
    Joined(EndValue),
    /// Taken out for the time of its leg. No table of a world has it.
    Taken,
}

impl WorldSlot {
    /// Lets the revision go.
    pub fn give_up(self) {
        match self {
            WorldSlot::Running(runner) => runner.give_up(),
            WorldSlot::Standing(at) => at.give_up(),
            WorldSlot::Ended(_) | WorldSlot::Joined(_) | WorldSlot::Taken => {},
        }
    }
}
