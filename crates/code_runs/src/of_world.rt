//! The outcome of a world that is over.

ghost use Rattle.std.specs.Prelude.{◌≡◌, ℕ, IfOk, Some};
ghost use Rattle.revision_machine.specs.Numbered.{World as DefinedWorld};
ghost use Rattle.code_machine.specs.Local.{Local};
ghost use Rattle.code_machine.specs.Outcome as machine;
ghost use Rattle.code_machine_laws.specs.Reached.{IsReached};
ghost use Rattle.rev_vm.specs.Starts.{run_under};
ghost use Rattle.code_world.specs.Endings.{HasNoLeg};
ghost use Rattle.code_world.specs.Tables.{IsWorld};

use crate::outcomes::outcome_of;
use code_world::World;
use leg_run::CodeSetting;
use rev_num::Outcome;
use std::alloc::{AllocError, Global};

/// The outcome of a world in which no revision has a leg, which stays as it is. Want of memory is
/// the one error.
pub fn outcome_of_world(
    alloc: Global,
    setting: &CodeSetting,
    world: &World,
) -> Result<Outcome, AllocError>
    requires over { (w : DefinedWorld (Local ℕ)) × IsReached (run_under setting.now) w
        × IsWorld (run_under setting.now) world.now w × HasNoLeg (run_under setting.now) w }
    ensures { IfOk result (λ o. (w : DefinedWorld (Local ℕ)) → IsReached (run_under setting.now) w
        → IsWorld (run_under setting.now) world.now w → HasNoLeg (run_under setting.now) w
        → machine.outcome (run_under setting.now) w ≡ Some o) }
{
    match world.end_of(0) {
        None => Ok(Outcome::Twice),
        Some(end) => {
            let end = end.copied(alloc)?;
            let outcome = outcome_of(alloc, setting, world.births(), end)?;
            Ok(outcome)
        },
    }
}
