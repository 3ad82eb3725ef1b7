//! Runs that take over what has not changed.

ghost use Rattle.std.specs.Prelude.{◌≡◌, ◌≤◌, IfOk, List};
ghost use Rattle.rev_num.specs.Limits.{most_fuel};
ghost use Rattle.fun_run.specs.Merging.{AreMergesOf};
ghost use Rattle.block_run.specs.Area.{count};
ghost use Rattle.code_memos.specs.Leaf.{Known};
ghost use Rattle.code_runs.specs.Completed.{IsAfter};
ghost use Rattle.rev_vm.specs.Starts.{run_under};
ghost use Rattle.rev_record.specs.Memos.{HasEntries, Reuses, counted_in};

use crate::memo::Memo;
use crate::repeater::Repeater;
use code_world::World;
use leg_run::CodeSetting;
use std::alloc::{AllocError, Global};
use version_map::MergeBy;
use world_runs::finish_by;

/// So many revisions were taken over, and none where a revision was joined a second time.
fn counted(world: &World, reused: u64) -> u64
    ensures { result ≡ counted_in world.now reused }
{
    match world {
        World::Twice => 0,
        World::Live(_) => reused,
    }
}

/// The world after a complete schedule from the start of `main`, with this fuel, of which there are
/// at most 4,000,000,000 units; and how many of its revisions have a valid entry in the memo of a
/// run of the same code, whose ends were taken over from there. That is 0 where a revision is joined
/// a second time. Want of memory is the one error.
pub fn repeat<M: MergeBy>(
    alloc: Global,
    setting: &CodeSetting,
    merges: &mut M,
    fuel: u64,
    memo: &Memo,
) -> Result<(World, u64), AllocError>
    requires fuel { fuel ≤ most_fuel }
    requires memo { (es : List Known) × HasEntries setting.now.code memo.now es }
    requires size { M.size merges.old ≡ count setting.now.code.vars }
    requires merges { AreMergesOf (run_under setting.now) (M.merges merges.old) }
    ensures world { IfOk result (λ r. IsAfter (run_under setting.now) fuel r.0) }
    ensures count { (es : List Known) → HasEntries setting.now.code memo.now es
        → IfOk result (λ r. Reuses (run_under setting.now) fuel es r.1) }
    ensures size { M.size merges.new ≡ M.size merges.old }
    ensures same { M.merges merges.new ≡ M.merges merges.old }
{
    let start = World::begin(alloc, setting, fuel)?;
    let mut repeater = Repeater { memo, reused: 0 };
    let end = finish_by(alloc, setting, merges, start, &mut repeater)?;
    let reused = counted(&end, repeater.reused);
    Ok((end, reused))
}
