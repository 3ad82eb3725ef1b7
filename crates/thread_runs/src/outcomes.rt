//! The outcome of a run.

ghost use Rattle.std.specs.Prelude.{ℕ, IfOk};
ghost use Rattle.code_machine_laws.specs.Outcomes.{HasOutcome};
ghost use Rattle.rev_vm.specs.Starts.{run_under};
ghost use Rattle.thread_runs.specs.Told.{IsRunOf};

use crate::births::births_of;
use crate::ends::main_end;
use code_runs::outcome_of;
use hub_core::{HubState, Revision};
use leg_run::CodeSetting;
use rev_num::Outcome;
use run_revision::CodeEnd;
use std::alloc::{AllocError, Global};
use turn_hub::HubRun;

/// The outcome of the code, from what a hub kept of its run, over any machine whose ends are those
/// of code: Twice where a revision was joined a second time, and else by what `main` left. The run
/// is lent, so what `main` left is copied, once. Births take one pass over the forkers. The run
/// itself was not halted for want of memory. Want of memory is the one error.
pub fn outcome_of_run<'a, L: Revision<End = CodeEnd<'a>>>(
    alloc: Global,
    setting: &CodeSetting,
    run: &HubRun<L>,
) -> Result<Outcome, AllocError>
    requires run { (fuel : ℕ) × IsRunOf (run_under setting.now) fuel run.now }
    ensures { IfOk result (λ o. (fuel : ℕ) → IsRunOf (run_under setting.now) fuel run.now
        → HasOutcome (run_under setting.now) fuel o) }
{
    match run.state() {
        HubState::Twice => Ok(Outcome::Twice),
        HubState::NoMemory => unreachable!(),
        HubState::All => {
            let births = births_of(alloc, run.forkers())?;
            let left = main_end(run.ends());
            let end = left.value().copied(alloc)?;
            let outcome = outcome_of(alloc, setting, births.as_slice(), end)?;
            Ok(outcome)
        },
    }
}
