//! Legs whose ends are known.

ghost use Rattle.std.specs.Prelude.{◌≡◌, ℕ, Some};
ghost use Rattle.code_machine.specs.Local.{CodeRun, IsVerified, Local};
ghost use Rattle.code_machine_laws.specs.Reached.{IsReached};
ghost use Rattle.revision_machine.specs.Numbered.{Entries, Listing, at_number};
ghost use Rattle.code_world.specs.declared.slot.WorldSlot.TheVariants as slot;
ghost use Rattle.code_world.specs.Adopted.{EndsSo};
ghost use Rattle.code_world.specs.Answers.{Answers, LegAnswers};
ghost use Rattle.code_world.specs.Tables.{IsWorld};
ghost use Rattle.code_world.specs.Touches.{Touches, TouchesIn};
ghost use Rattle.code_world.specs.Turns.{IsGood};

use crate::answer::LegAnswer;
use crate::slot::WorldSlot;
use crate::table::Table;
use crate::turn::answer_of;
use crate::world::{World, world_of};
use version_map::EndValue;

impl Table {
    /// Puts what a running revision leaves in its place, where that is known to be the end of its
    /// leg.
    fn adopt(&mut self, number: u32, end: EndValue) -> LegAnswer
        requires { (r : _) × (at_number self.old.slots.items number ≡ Some (slot.Running r)) }
        ensures answer { (g : CodeRun) (w : Entries (Local ℕ)) → IsGood g self.old w
            → EndsSo g w number end → Answers g w number result self.new }
        ensures touches { Touches self.old number result self.new }
    {
        let answer = answer_of(end.finish);
        let runner = self.take_runner(number as usize);
        runner.give_up();
        self.put(number as usize, WorldSlot::Ended(end));
        answer
    }
}

/// The world after the leg of a revision, where it is known that the leg ends it and that it leaves
/// this; and how that leg comes out. It takes no memory and does no instruction.
pub fn adopt(world: World, revision: u32, end: EndValue) -> (World, LegAnswer)
    requires { (g : CodeRun) × (w : Entries (Local ℕ)) × IsVerified g × IsReached g (Listing w)
        × IsWorld g world (Listing w) × EndsSo g w revision end }
    ensures answer { (g : CodeRun) (w : Entries (Local ℕ)) → IsVerified g → IsReached g (Listing w)
        → IsWorld g world (Listing w) → EndsSo g w revision end
        → LegAnswers g (Listing w) revision result.1 result.0 }
    ensures touches { TouchesIn world revision result.1 result.0 }
{
    let mut table = match world {
        World::Live(table) => table,
        World::Twice => unreachable!(),
    };
    let answer = table.adopt(revision, end);
    (world_of(table, answer), answer)
}
