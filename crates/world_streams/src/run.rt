//! A run to its end that prints as it runs, by the least number that has a leg.

ghost use Rattle.std.specs.Prelude.{◌≡◌, ℕ, IfOk};
ghost use Rattle.fun_run.specs.Merging.{AreMergesOf};
ghost use Rattle.block_run.specs.Area.{count};
ghost use Rattle.code_machine.specs.Local.{Local};
ghost use Rattle.code_world.specs.Tables.{IsWorld};
ghost use Rattle.code_machine_laws.specs.Reached.{IsReached};
ghost use Rattle.revision_machine.specs.Numbered.{World as DefinedWorld};
ghost use Rattle.rev_vm.specs.Starts.{run_under};
ghost use Rattle.world_runs.specs.Finish.{HasFinished};
ghost use Rattle.world_streams.specs.Runs.{NeverTwiceFrom, StreamsTo};

use crate::fault::StreamFault;
use crate::streamer::Streamer;
use code_world::World;
use leg_run::CodeSetting;
use rev_io::Sink;
use std::alloc::Global;
use version_map::MergeBy;
use world_runs::finish_by;

/// Makes the leg of the least number that has one, time after time, until none has, and `out` gets
/// in each leg what the text of `main` gains. Where the sink fails or memory runs out the world is
/// lost.
pub fn stream<M: MergeBy, O: Sink>(
    alloc: Global,
    setting: &CodeSetting,
    merges: &mut M,
    world: World,
    out: &mut O,
) -> Result<World, StreamFault>
    requires reached { (w : DefinedWorld (Local ℕ)) × IsReached (run_under setting.now) w
        × IsWorld (run_under setting.now) world w × NeverTwiceFrom (run_under setting.now) w }
    requires size { M.size merges.old ≡ count setting.now.code.vars }
    requires merges { AreMergesOf (run_under setting.now) (M.merges merges.old) }
    ensures finished { (w : DefinedWorld (Local ℕ)) → IsReached (run_under setting.now) w
        → IsWorld (run_under setting.now) world w → NeverTwiceFrom (run_under setting.now) w
        → IfOk result (λ v. HasFinished (run_under setting.now) w v) }
    ensures put { (w : DefinedWorld (Local ℕ)) → IsReached (run_under setting.now) w
        → IsWorld (run_under setting.now) world w → NeverTwiceFrom (run_under setting.now) w
        → StreamsTo (run_under setting.now) w world
        (O.stream out.old) (O.stream out.new) result }
    ensures size { M.size merges.new ≡ M.size merges.old }
    ensures same { M.merges merges.new ≡ M.merges merges.old }
{
    let mut streamer = Streamer::new(out);
    let end = finish_by(alloc, setting, merges, world, &mut streamer)?;
    Ok(end)
}
