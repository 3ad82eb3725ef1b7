//! What `main` has printed.

ghost use Rattle.std.specs.Prelude.{◌≡◌, ℕ};
ghost use Rattle.code_machine.specs.Local.{CodeRun, Local};
ghost use Rattle.revision_machine.specs.Numbered.{Entries, World as DefinedWorld, at_number};
ghost use Rattle.code_world.specs.Said.{main_text, slot_text};
ghost use Rattle.code_world.specs.Tables.{AreSlots, IsWorld};

use crate::slot::WorldSlot;
use crate::table::Table;
use crate::world::World;

impl Table {
    /// What `main` has printed so far.
    fn main_text(&self) -> &[u8]
        ensures { (g : CodeRun) (w : Entries (Local ℕ)) → AreSlots g self.now.slots.items w
            → result.now ≡ slot_text (at_number self.now.slots.items 0) }
    {
        match self.slots.get(0) {
            None => &[],
            Some(WorldSlot::Taken) => &[],
            Some(WorldSlot::Running(runner)) => runner.text(),
            Some(WorldSlot::Standing(at)) => at.text(),
            Some(WorldSlot::Ended(end)) => end.text.as_slice(),
            Some(WorldSlot::Joined(end)) => end.text.as_slice(),
        }
    }
}

impl World {
    /// What `main` has printed so far; where it was found to wait, up to its join. In Twice nothing.
    pub fn main_text(&self) -> &[u8]
        ensures { (g : CodeRun) (w : DefinedWorld (Local ℕ)) → IsWorld g self.now w
            → result.now ≡ main_text self.now }
    {
        match self {
            World::Live(table) => table.main_text(),
            World::Twice => &[],
        }
    }
}
