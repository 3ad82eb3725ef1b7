//! Legs of worlds, with notes of what they read.

ghost use Rattle.std.specs.Prelude.{◌≡◌, ◌<◌, ◌^◌, ℕ, IfOk, length};
ghost use Rattle.rev_vm.specs.Meaning.{AreMergesOf};
ghost use Rattle.block_run.specs.Area.{count};
ghost use Rattle.code_machine.specs.Local.{Local};
ghost use Rattle.code_machine_laws.specs.Reached.{IsReached};
ghost use Rattle.revision_machine.specs.Numbered.{Entries, Listing, World as DefinedWorld};
ghost use Rattle.rev_vm.specs.Starts.{run_under};
ghost use Rattle.version_map.specs.Deltas.{locations};
ghost use Rattle.code_world.specs.Answers.{LegAnswers};
ghost use Rattle.code_world.specs.Between.{HasReadIn};
ghost use Rattle.code_world.specs.Meetings.{HasNoted};
ghost use Rattle.code_world.specs.Touches.{TouchesIn};
ghost use Rattle.code_world.specs.Tables.{IsWorld};

use crate::answer::LegAnswer;
use crate::noted::{NotedLeg, noted_end};
use crate::world::{World, world_of};
use leg_run::{CodeSetting, ReadMarks};
use std::alloc::{AllocError, Global};
use version_map::MergeBy;

/// As `leg_meeting`, with notes of what the leg reads of the revision's snapshot and of the input.
/// Of a revision that stands at its join, has ended or is none of the world nothing is noted.
pub fn leg_noting<M: MergeBy>(
    alloc: Global,
    setting: &CodeSetting,
    merges: &mut M,
    world: World,
    revision: u32,
    noted: &mut ReadMarks,
) -> Result<(World, NotedLeg), AllocError>
    requires reached { (w : DefinedWorld (Local ℕ)) × IsReached (run_under setting.now) w
        × IsWorld (run_under setting.now) world w }
    requires size { M.size merges.old ≡ count setting.now.code.vars }
    requires merges { AreMergesOf (run_under setting.now) (M.merges merges.old) }
    requires locations { locations noted.old.locations ≡ count setting.now.code.vars }
    requires few { length setting.now.inputs.items < 2 ^ 32 }
    requires positions { locations noted.old.inputs ≡ length setting.now.inputs.items }
    ensures answer { (w : DefinedWorld (Local ℕ)) → IsReached (run_under setting.now) w
        → IsWorld (run_under setting.now) world w
        → IfOk result (λ r. LegAnswers (run_under setting.now) w revision r.1.answer r.0) }
    ensures noted { (w : Entries (Local ℕ)) → IsReached (run_under setting.now) (Listing w)
        → IsWorld (run_under setting.now) world (Listing w)
        → IfOk result (λ r. HasNoted (run_under setting.now) w revision r.1.answer r.1.meeting) }
    ensures read { (w : DefinedWorld (Local ℕ)) → IsReached (run_under setting.now) w
        → IsWorld (run_under setting.now) world w → IfOk result (λ _.
        HasReadIn (run_under setting.now) world w revision noted.old noted.new) }
    ensures touches { IfOk result (λ r. TouchesIn world revision r.1.answer r.0) }
    ensures size { M.size merges.new ≡ M.size merges.old }
    ensures same { M.merges merges.new ≡ M.merges merges.old }
{
    let mut table = match world {
        World::Live(table) => table,
        World::Twice => return Ok((World::Twice, noted_end(LegAnswer::Twice))),
    };
    match table.leg_noting(alloc, setting, merges, revision, noted) {
        Ok(leg) => Ok((world_of(table, leg.answer), leg)),
        Err(error) => {
            table.give_up();
            Err(error)
        },
    }
}
