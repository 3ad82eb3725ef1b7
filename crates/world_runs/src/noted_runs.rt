//! Runs with notes of each revision: to the end, and by a schedule.

ghost use Rattle.std.specs.Prelude.{◌≡◌, ◌≤◌, ℕ, IfErr, IfOk};
ghost use Rattle.rev_num.specs.Limits.{most_fuel};
ghost use Rattle.fun_run.specs.Merging.{AreMergesOf};
ghost use Rattle.block_run.specs.Area.{count};
ghost use Rattle.code_machine.specs.Local.{CodeRun, Local};
ghost use Rattle.code_machine.specs.Machines.{IsMain, numbered, start_in};
ghost use Rattle.code_world.specs.Tables.{IsWorld};
ghost use Rattle.code_machine_laws.specs.Reached.{IsReached};
ghost use Rattle.revision_machine.specs.Numbered.{World as DefinedWorld, begin};
ghost use Rattle.rev_vm.specs.Starts.{run_under};
ghost use Rattle.world_runs.specs.Replay.{IsIllegal, Replayed};
ghost use Rattle.world_runs.specs.Notes.{NotesOf};
ghost use Rattle.world_runs.specs.NotedRuns.{HasFinishedNoting};

use crate::ending::finish_by;
use crate::noted::Noted;
use crate::noter::Noter;
use crate::replaying::{ReplayFault, replay_by};
use code_world::World;
use leg_run::CodeSetting;
use std::alloc::{AllocError, Global};
use version_map::MergeBy;

/// Makes the leg of the least number that has one, time after time, until none has, with these
/// notes of the revisions so far. In Twice nothing is said of the notes. Want of memory is the one
/// error, and the world is lost.
pub fn finish_noting<M: MergeBy>(
    alloc: Global,
    setting: &CodeSetting,
    merges: &mut M,
    world: World,
    notes: &mut Vec<Noted>,
) -> Result<World, AllocError>
    requires reached { (w : DefinedWorld (Local ℕ)) × IsReached (run_under setting.now) w
        × IsWorld (run_under setting.now) world w
        × NotesOf (run_under setting.now) w notes.old.items }
    requires size { M.size merges.old ≡ count setting.now.code.vars }
    requires merges { AreMergesOf (run_under setting.now) (M.merges merges.old) }
    ensures finished { (w : DefinedWorld (Local ℕ)) → IsReached (run_under setting.now) w
        → IsWorld (run_under setting.now) world w
        → NotesOf (run_under setting.now) w notes.old.items
        → IfOk result (λ v. HasFinishedNoting (run_under setting.now) w v notes.new.items) }
    ensures size { M.size merges.new ≡ M.size merges.old }
    ensures same { M.merges merges.new ≡ M.merges merges.old }
{
    let mut noter = Noter::new(notes);
    let end = finish_by(alloc, setting, merges, world, &mut noter)?;
    Ok(end)
}

/// The notes of a world at the start.
pub fn first_notes(alloc: Global) -> Result<Vec<Noted>, AllocError>
    ensures { IfOk result (λ ns. (g : CodeRun) (fuel n : ℕ) (m : IsMain g n)
        → NotesOf g (begin (numbered g) (start_in g n m.body fuel)) ns.items) }
{
    let mut notes = Vec::new(alloc);
    let first = Noted::new(alloc);
    notes.push(first)?;
    Ok(notes)
}

/// As `replay`, and what is noted of the revisions of the world there. In Twice
/// nothing is said of the notes.
pub fn replay_noting<M: MergeBy>(
    alloc: Global,
    setting: &CodeSetting,
    merges: &mut M,
    fuel: u64,
    schedule: &[u32],
) -> Result<(World, Vec<Noted>), ReplayFault>
    requires fuel { fuel ≤ most_fuel }
    requires size { M.size merges.old ≡ count setting.now.code.vars }
    requires merges { AreMergesOf (run_under setting.now) (M.merges merges.old) }
    ensures ok { IfOk result (λ r. (w : DefinedWorld (Local ℕ))
        × Replayed (run_under setting.now) fuel schedule.now w
        × IsReached (run_under setting.now) w × IsWorld (run_under setting.now) r.0 w
        × NotesOf (run_under setting.now) w r.1.items) }
    ensures fault { IfErr result
        (λ f. IsIllegal (run_under setting.now) fuel schedule.now f) }
    ensures size { M.size merges.new ≡ M.size merges.old }
    ensures same { M.merges merges.new ≡ M.merges merges.old }
{
    let mut notes = first_notes(alloc)?;
    let mut noter = Noter::new(&mut notes);
    let world = replay_by(alloc, setting, merges, fuel, schedule, &mut noter)?;
    Ok((world, notes))
}
