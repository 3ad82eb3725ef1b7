//! Legs whose text goes to a sink.

ghost use Rattle.std.specs.Prelude.{◌≡◌, ◌≤◌, drop, length, ℕ, IfOk};
ghost use Rattle.fun_run.specs.Merging.{AreMergesOf};
ghost use Rattle.block_run.specs.Area.{count};
ghost use Rattle.code_machine.specs.Local.{Local};
ghost use Rattle.code_world.specs.Answers.{LegAnswers};
ghost use Rattle.code_world.specs.Tables.{IsWorld};
ghost use Rattle.code_machine_laws.specs.Reached.{IsReached};
ghost use Rattle.revision_machine.specs.Numbered.{World as DefinedWorld};
ghost use Rattle.rev_io.specs.Stream.{WritesAll};
ghost use Rattle.rev_vm.specs.Starts.{run_under};
ghost use Rattle.world_streams.specs.Legs.{NeverTwiceBy, StreamsLeg};

use crate::fault::StreamFault;
use code_world::{LegAnswer, World, leg};
use leg_run::CodeSetting;
use rev_io::{Sink, SinkFault, write_all};
use std::alloc::Global;
use version_map::MergeBy;

/// Writes what stands in a text behind so many bytes.
fn put_behind<O: Sink>(out: &mut O, text: &[u8], before: usize) -> Result<(), SinkFault>
    requires { before ≤ length text.now }
    ensures { WritesAll (O.stream out.old) (O.stream out.new) (drop before text.now) result }
{
    write_all(out, &text[before..])
}

/// As `leg`, and `out` gets what the text of `main` gains in it. A leg that would lead to Twice is
/// not to be made. Where the sink fails or memory runs out the world is lost, and `out` took a first
/// part of the gain.
pub fn stream_leg<M: MergeBy, O: Sink>(
    alloc: Global,
    setting: &CodeSetting,
    merges: &mut M,
    world: World,
    revision: u32,
    out: &mut O,
) -> Result<(World, LegAnswer), StreamFault>
    requires reached { (w : DefinedWorld (Local ℕ)) × IsReached (run_under setting.now) w
        × IsWorld (run_under setting.now) world w × NeverTwiceBy (run_under setting.now) w revision }
    requires size { M.size merges.old ≡ count setting.now.code.vars }
    requires merges { AreMergesOf (run_under setting.now) (M.merges merges.old) }
    ensures answer { (w : DefinedWorld (Local ℕ)) → IsReached (run_under setting.now) w
        → IsWorld (run_under setting.now) world w
        → IfOk result (λ r. LegAnswers (run_under setting.now) w revision r.1 r.0) }
    ensures put { (w : DefinedWorld (Local ℕ)) → IsReached (run_under setting.now) w
        → IsWorld (run_under setting.now) world w → NeverTwiceBy (run_under setting.now) w revision
        → StreamsLeg (run_under setting.now) w revision world
        (O.stream out.old) (O.stream out.new) result }
    ensures size { M.size merges.new ≡ M.size merges.old }
    ensures same { M.merges merges.new ≡ M.merges merges.old }
{
    let before = world.main_text().len();
    let (next, answer) = match leg(alloc, setting, merges, world, revision) {
        Ok(made) => made,
        Err(_) => return Err(StreamFault::OutOfMemory),
    };
    match put_behind(out, next.main_text(), before) {
        Ok(()) => Ok((next, answer)),
        Err(SinkFault::Failed) => {
            next.give_up();
            Err(StreamFault::Sink)
        },
        Err(SinkFault::OutOfMemory) => {
            next.give_up();
            Err(StreamFault::OutOfMemory)
        },
    }
}
