//! Where the revisions of a world come from.

ghost use Rattle.std.specs.Prelude.{ℕ};
ghost use Rattle.code_machine.specs.Local.{CodeRun, Local};
ghost use Rattle.revision_machine.specs.Numbered.{Entries, Listing, paths_of};
ghost use Rattle.code_world.specs.Endings.{Names};
ghost use Rattle.code_world.specs.Tables.{IsWorld};

use crate::table::Birth;
use crate::world::World;

impl World {
    /// Where each revision comes from, by number. In Twice there is none.
    pub fn births(&self) -> &[Birth]
        ensures { (g : CodeRun) (w : Entries (Local ℕ)) → IsWorld g self.now (Listing w)
            → Names result.now (paths_of w) }
    {
        match self {
            World::Live(table) => table.births.as_slice(),
            World::Twice => &[],
        }
    }
}
