//! The trace of a world that is over.

ghost use Rattle.std.specs.Prelude.{ℕ, IfOk};
ghost use Rattle.code_machine.specs.Local.{Local};
ghost use Rattle.code_world.specs.Endings.{HasNoLeg};
ghost use Rattle.code_world.specs.Tables.{IsWorld};
ghost use Rattle.code_machine_laws.specs.Reached.{IsReached};
ghost use Rattle.revision_machine.specs.Numbered.{World as DefinedWorld};
ghost use Rattle.rev_vm.specs.Starts.{run_under};
ghost use Rattle.world_runs.specs.Notes.{NotesOf};
ghost use Rattle.code_traces.specs.Traced.{IsTraceIn};

use crate::listing::trace_of;
use code_world::World;
use leg_run::CodeSetting;
use std::alloc::{AllocError, Global};
use trace_diagram::Trace;
use world_runs::Noted;

/// The trace of a world in which no revision has a leg, from the notes of its revisions. There is
/// none where a revision was joined a second time. Want of memory is the one error.
pub fn trace_of_world(
    alloc: Global,
    setting: &CodeSetting,
    world: &World,
    notes: Vec<Noted>,
) -> Result<Option<Trace>, AllocError>
    requires { (w : DefinedWorld (Local ℕ)) × IsReached (run_under setting.now) w
        × IsWorld (run_under setting.now) world.now w × HasNoLeg (run_under setting.now) w
        × NotesOf (run_under setting.now) w notes.items }
    ensures { IfOk result (λ t. (w : DefinedWorld (Local ℕ)) → IsReached (run_under setting.now) w
        → IsWorld (run_under setting.now) world.now w → HasNoLeg (run_under setting.now) w
        → NotesOf (run_under setting.now) w notes.items
        → IsTraceIn (run_under setting.now) w t) }
{
    match world {
        World::Twice => Ok(None),
        World::Live(_) => {
            let trace = trace_of(alloc, setting, world.births(), notes)?;
            Ok(Some(trace))
        },
    }
}
