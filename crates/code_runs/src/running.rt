//! Runs of verified code.

ghost use Rattle.std.specs.Prelude.{◌≡◌, ◌≤◌, ℕ, IfErr, IfOk};
ghost use Rattle.rev_num.specs.Limits.{most_fuel};
ghost use Rattle.fun_run.specs.Merging.{AreMergesOf};
ghost use Rattle.block_run.specs.Area.{count};
ghost use Rattle.code_machine_laws.specs.Outcomes.{HasOutcome};
ghost use Rattle.rev_vm.specs.Starts.{run_under};
ghost use Rattle.world_runs.specs.Replay.{IsIllegal};
ghost use Rattle.code_runs.specs.Completed.{IsUnderway};
ghost use Rattle.code_runs.specs.Schedules.{IsLegal};

use crate::after::outcome_after;
use crate::inputs::note_inputs;
use code_verifier::Verified;
use code_world::World;
use fun_run::BlockMerges;
use leg_run::CodeSetting;
use rev_num::Outcome;
use std::alloc::{AllocError, Global};
use version_map::MergeBy;
use world_runs::{ReplayFault, finish, replay};

/// The outcome of the code, from its world after a legal schedule, which is run to its end.
fn complete<M: MergeBy>(
    alloc: Global,
    setting: &CodeSetting,
    merges: &mut M,
    world: World,
) -> Result<Outcome, AllocError>
    requires underway { (fuel : ℕ) × IsUnderway (run_under setting.now) fuel world }
    requires size { M.size merges.old ≡ count setting.now.code.vars }
    requires merges { AreMergesOf (run_under setting.now) (M.merges merges.old) }
    ensures { IfOk result (λ o. (fuel : ℕ) → IsUnderway (run_under setting.now) fuel world
        → HasOutcome (run_under setting.now) fuel o) }
{
    let end = finish(alloc, setting, merges, world)?;
    let outcome = outcome_after(alloc, setting, end)?;
    Ok(outcome)
}

/// The outcome of verified code with these inputs, share and fuel, of which there are at most
/// 4,000,000,000 units. It runs on one thread; no complete schedule has another outcome. Want of
/// memory is the one error.
pub fn run_code(
    alloc: Global,
    code: Verified,
    inputs: Vec<i64>,
    share: u64,
    fuel: u64,
) -> Result<Outcome, AllocError>
    requires { fuel ≤ most_fuel }
    ensures { IfOk result (λ o. HasOutcome
        (record { code = code.code; inputs = inputs.items; share = share }) fuel o) }
{
    note_inputs(&inputs);
    let setting = CodeSetting::new(alloc, code.into_code(), inputs, share)?;
    let mut merges = BlockMerges::of(alloc, setting.code())?;
    let start = World::begin(alloc, &setting, fuel)?;
    let outcome = complete(alloc, &setting, &mut merges, start)?;
    Ok(outcome)
}

/// The same of a run that begins with the legs of this schedule, one for each entry. It is refused
/// at the first entry that has no leg. The other fault is want of memory.
pub fn replay_code(
    alloc: Global,
    code: Verified,
    inputs: Vec<i64>,
    share: u64,
    fuel: u64,
    schedule: &[u32],
) -> Result<Outcome, ReplayFault>
    requires { fuel ≤ most_fuel }
    ensures legal { IfOk result (λ o. IsLegal
        (record { code = code.code; inputs = inputs.items; share = share }) fuel schedule.now) }
    ensures outcome { IfOk result (λ o. HasOutcome
        (record { code = code.code; inputs = inputs.items; share = share }) fuel o) }
    ensures fault { IfErr result (λ f. IsIllegal
        (record { code = code.code; inputs = inputs.items; share = share }) fuel schedule.now f) }
{
    note_inputs(&inputs);
    let setting = CodeSetting::new(alloc, code.into_code(), inputs, share)?;
    let mut merges = BlockMerges::of(alloc, setting.code())?;
    let world = replay(alloc, &setting, &mut merges, fuel, schedule)?;
    let outcome = complete(alloc, &setting, &mut merges, world)?;
    Ok(outcome)
}
