//! Runs by legs as they are.

ghost use Rattle.std.specs.Prelude.{◌≡◌, ◌≤◌, ℕ, IfErr, IfOk};
ghost use Rattle.rev_num.specs.Limits.{most_fuel};
ghost use Rattle.fun_run.specs.Merging.{AreMergesOf};
ghost use Rattle.block_run.specs.Area.{count};
ghost use Rattle.code_machine.specs.Local.{Local};
ghost use Rattle.code_world.specs.LegOutcomes.{run_under};
ghost use Rattle.code_world.specs.Tables.{IsWorld};
ghost use Rattle.code_machine_laws.specs.Reached.{IsReached};
ghost use Rattle.revision_machine.specs.Numbered.{World as DefinedWorld};
ghost use Rattle.world_runs.specs.Finish.{HasFinished};
ghost use Rattle.world_runs.specs.Replay.{IsIllegal, Replayed};

use crate::ending::finish_by;
use crate::legs::Legs;
use crate::replaying::{ReplayFault, replay_by};
use code_world::{CodeSetting, LegAnswer, World, leg};
use std::alloc::{AllocError, Global};
use version_map::MergeBy;

/// Legs as they are.
#[derive(Drop)]
struct Plain;

impl Legs for Plain {
    type Fault = AllocError;

    ghost Told = { Unit {0} };

    ghost keeps = { λ l t g w v. Unit {0} };

    ghost stops = { λ l t g f. Unit {0} };

    fn leg<M: MergeBy>(
        &mut self,
        alloc: Global,
        setting: &CodeSetting,
        merges: &mut M,
        world: World,
        revision: u32,
    ) -> Result<(World, LegAnswer), AllocError> {
        let made = leg(alloc, setting, merges, world, revision)?;
        Ok(made)
    }

    fn out_of_memory(&self, error: AllocError) -> AllocError {
        error
    }
}

/// Makes the leg of the least number that has one, time after time, until none has. Want of memory
/// is the one error, and the world is lost.
pub fn finish<M: MergeBy>(
    alloc: Global,
    setting: &CodeSetting,
    merges: &mut M,
    world: World,
) -> Result<World, AllocError>
    requires reached { (w : DefinedWorld (Local ℕ)) × IsReached (run_under setting.now) w
        × IsWorld (run_under setting.now) world w }
    requires size { M.size merges.old ≡ count setting.now.code.vars }
    requires merges { AreMergesOf (run_under setting.now) (M.merges merges.old) }
    ensures finished { (w : DefinedWorld (Local ℕ)) → IsReached (run_under setting.now) w
        → IsWorld (run_under setting.now) world w
        → IfOk result (λ v. HasFinished (run_under setting.now) w v) }
    ensures size { M.size merges.new ≡ M.size merges.old }
    ensures same { M.merges merges.new ≡ M.merges merges.old }
{
    let mut legs = Plain;
    let end = finish_by(alloc, setting, merges, world, &mut legs)?;
    Ok(end)
}

/// The world after this schedule from the start of `main`, with this fuel, of which there are at
/// most 4,000,000,000 units. It is refused at the first entry that names no revision, one that has
/// ended or one that waits, and at any after Twice.
pub fn replay<M: MergeBy>(
    alloc: Global,
    setting: &CodeSetting,
    merges: &mut M,
    fuel: u64,
    schedule: &[u32],
) -> Result<World, ReplayFault>
    requires fuel { fuel ≤ most_fuel }
    requires size { M.size merges.old ≡ count setting.now.code.vars }
    requires merges { AreMergesOf (run_under setting.now) (M.merges merges.old) }
    ensures ok { IfOk result (λ v. (w : DefinedWorld (Local ℕ))
        × Replayed (run_under setting.now) fuel schedule.now w
        × IsReached (run_under setting.now) w × IsWorld (run_under setting.now) v w) }
    ensures fault { IfErr result
        (λ f. IsIllegal (run_under setting.now) fuel schedule.now f) }
    ensures size { M.size merges.new ≡ M.size merges.old }
    ensures same { M.merges merges.new ≡ M.merges merges.old }
{
    let mut legs = Plain;
    let world = replay_by(alloc, setting, merges, fuel, schedule, &mut legs)?;
    Ok(world)
}
