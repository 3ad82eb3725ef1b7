//! How many revisions a world has.

ghost use Rattle.std.specs.Prelude.{◌≡◌};
ghost use Rattle.code_world.specs.Counts.{slot_count};

use crate::world::World;

impl World {
    /// How many revisions it has, with those that have ended or were joined. In Twice 0.
    pub fn count(&self) -> usize
        ensures { result ≡ slot_count self.now }
    {
        match self {
            World::Live(table) => table.slots.len(),
            World::Twice => 0,
        }
    }
}
