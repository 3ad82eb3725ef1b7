//! What `main` left.

ghost use Rattle.std.specs.Prelude.{◌≡◌, ℕ, Some};
ghost use Rattle.code_machine.specs.Local.{CodeRun, Local};
ghost use Rattle.revision_machine.specs.Numbered.{World as DefinedWorld, at_number};
ghost use Rattle.code_world.specs.declared.slot.WorldSlot.TheVariants as slot;
ghost use Rattle.code_world.specs.Endings.{HasLeft, MainIsOver};
ghost use Rattle.code_world.specs.Tables.{IsWorld};

use crate::slot::WorldSlot;
use crate::table::{Birth, Table};
use crate::world::World;
use version_map::EndValue;

/// What `main` left, and where each revision of its world comes from, by number.
#[derive(Drop)]
pub struct MainEnd {
    pub end: EndValue,
    pub births: Vec<Birth>,
}

/// Lets all of these revisions go.
fn give_up_all(slots: Vec<WorldSlot>) {
    let mut rest = slots.into_iter();
    while let Some(slot) = rest.next() {
        slot.give_up();
    }
    rest.destroy_empty();
}

impl Table {
    /// What `main` left, which has ended. All other revisions are let go.
    fn into_main(mut self) -> MainEnd
        requires { (v : _) × (at_number self.slots.items 0 ≡ Some (slot.Ended v)) }
        ensures end { at_number self.slots.items 0 ≡ Some (slot.Ended result.end) }
        ensures births { result.births ≡ self.births }
    {
        let end = self.take_end(0);
        let Table {
            slots,
            births,
            spares: _,
        } = self;
        give_up_all(slots);
        MainEnd { end, births }
    }
}

impl World {
    /// What `main` left, which is done or has trapped. All other revisions are let go. There is
    /// none where a revision was joined a second time.
    pub fn into_main(self) -> Option<MainEnd>
        requires { (g : CodeRun) × (w : DefinedWorld (Local ℕ)) × IsWorld g self w × MainIsOver w }
        ensures { (g : CodeRun) (w : DefinedWorld (Local ℕ)) → IsWorld g self w → MainIsOver w
            → HasLeft g w result }
    {
        match self {
            World::Twice => None,
            World::Live(table) => Some(table.into_main()),
        }
    }
}
