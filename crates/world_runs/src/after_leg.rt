//! What a leg leaves ready, and what waits.

ghost use Rattle.std.specs.Prelude.{◌≡◌, ◌+◌, ℕ, OnOk, length};
ghost use Rattle.code_machine.specs.Local.{CodeRun, Local};
ghost use Rattle.code_world.specs.declared.world.World as rust;
ghost use Rattle.revision_machine.specs.Numbered.{Entries};
ghost use Rattle.world_runs.specs.Covers.{IsKnown, CoversAfter, IsStill};
ghost use Rattle.world_runs.specs.Queue.{HasReady, KeepsAll};

use crate::queue::ReadyQueue;
use code_world::LegAnswer;
use std::alloc::{AllocError, Global};

/// Notes how the leg of a revision came out.
pub(crate) fn note(
    alloc: Global,
    queue: &mut ReadyQueue,
    number: u32,
    answer: LegAnswer,
) -> Result<(), AllocError>
    requires { (g : CodeRun) × (w : Entries (Local ℕ)) × (v : rust.World)
        × IsKnown g w number answer v queue.old }
    ensures noted { (g : CodeRun) (w : Entries (Local ℕ)) (v : rust.World)
        → IsKnown g w number answer v queue.old
        → OnOk result (CoversAfter g w number answer queue.new) }
    ensures still { OnOk result (IsStill answer queue.old queue.new) }
{
    match answer {
        LegAnswer::Forked { child } => {
            note_fork(alloc, queue, number, child)?;
            Ok(())
        },
        LegAnswer::Joined { on: _on } => {
            queue.enter(number)?;
            Ok(())
        },
        LegAnswer::Ended => {
            queue.wake(alloc, number)?;
            Ok(())
        },
        LegAnswer::Trapped => {
            queue.wake(alloc, number)?;
            Ok(())
        },
        LegAnswer::Waits { on } => {
            queue.wait(number, on)?;
            Ok(())
        },
        LegAnswer::Twice => Ok(()),
        LegAnswer::NoSuch => Ok(()),
        LegAnswer::Over => Ok(()),
    }
}

/// Notes a fork: the forker and the child are ready.
fn note_fork(
    alloc: Global,
    queue: &mut ReadyQueue,
    number: u32,
    child: u32,
) -> Result<(), AllocError>
    ensures forker { OnOk result (HasReady queue.new number) }
    ensures child { OnOk result (HasReady queue.new child) }
    ensures kept { OnOk result (KeepsAll queue.old queue.new) }
    ensures count { OnOk result
        (length queue.new.waiters.items ≡ length queue.old.waiters.items + 1) }
{
    queue.grow(alloc)?;
    queue.enter(number)?;
    queue.enter(child)?;
    Ok(())
}
