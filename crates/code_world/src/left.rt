//! What a revision left.

ghost use Rattle.std.specs.Prelude.{◌≡◌, ℕ, option_copied};
ghost use Rattle.code_machine.specs.Local.{CodeRun, Local};
ghost use Rattle.revision_machine.specs.Numbered.{World as DefinedWorld, at_number};
ghost use Rattle.code_world.specs.Endings.{IsEndAt, left_in};
ghost use Rattle.code_world.specs.Tables.{IsWorld};

use crate::slot::WorldSlot;
use crate::table::Table;
use crate::world::World;
use version_map::EndValue;

impl Table {
    /// What the revision of this number left, where it has ended.
    fn left_by(&self, number: usize) -> Option<&EndValue>
        ensures { option_copied result ≡ left_in (at_number self.now.slots.items number) }
    {
        match self.slots.get(number) {
            Some(WorldSlot::Ended(end)) => Some(end),
            Some(WorldSlot::Joined(end)) => Some(end),
            _ => None,
        }
    }
}

impl World {
    /// What the revision of this number left, where it has ended, whether it was joined or not. In
    /// Twice there is none.
    pub fn end_of(&self, revision: u32) -> Option<&EndValue>
        ensures { (g : CodeRun) (w : DefinedWorld (Local ℕ)) → IsWorld g self.now w
            → IsEndAt g w revision (option_copied result) }
    {
        match self {
            World::Live(table) => table.left_by(revision as usize),
            World::Twice => None,
        }
    }
}
