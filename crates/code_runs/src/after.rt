//! The outcome of a world that is over.

ghost use Rattle.std.specs.Prelude.{ℕ, IfOk};
ghost use Rattle.code_machine_laws.specs.Outcomes.{HasOutcome};
ghost use Rattle.rev_vm.specs.Starts.{run_under};
ghost use Rattle.code_runs.specs.Completed.{IsAfter};

use crate::outcome_of;
use code_world::{MainEnd, World};
use leg_run::CodeSetting;
use rev_num::Outcome;
use std::alloc::{AllocError, Global};

/// The outcome of the code, from its world after a complete schedule. All revisions are let go.
/// Want of memory is the one error.
pub fn outcome_after(
    alloc: Global,
    setting: &CodeSetting,
    world: World,
) -> Result<Outcome, AllocError>
    requires over { (fuel : ℕ) × IsAfter (run_under setting.now) fuel world }
    ensures { IfOk result (λ o. (fuel : ℕ) → IsAfter (run_under setting.now) fuel world
        → HasOutcome (run_under setting.now) fuel o) }
{
    match world.into_main() {
        None => Ok(Outcome::Twice),
        Some(MainEnd { end, births }) => {
            let outcome = outcome_of(alloc, setting, births.as_slice(), end)?;
            Ok(outcome)
        },
    }
}
