//! Runs that are recorded.

ghost use Rattle.std.specs.Prelude.{◌≡◌, ◌≤◌, ◌<◌, ◌^◌, ℕ, IfOk, length};
ghost use Rattle.rev_num.specs.Limits.{most_fuel};
ghost use Rattle.fun_run.specs.Merging.{AreMergesOf};
ghost use Rattle.block_run.specs.Area.{count};
ghost use Rattle.code_runs.specs.Completed.{IsAfter};
ghost use Rattle.rev_vm.specs.Starts.{run_under};
ghost use Rattle.revision_machine.specs.Laws.{IsDistinct};
ghost use Rattle.rev_record.specs.Entries.{paths};
ghost use Rattle.rev_record.specs.Memos.{IsMemoOf, kept_in};

use crate::LeafEntry;
use crate::memo::Memo;
use crate::recorder::Recorder;
use code_world::World;
use leg_run::CodeSetting;
use std::alloc::{AllocError, Global};
use version_map::MergeBy;
use world_runs::finish_by;

/// The memo of these entries, and none where a revision was joined a second time.
fn memo_of(alloc: Global, world: &World, entries: Vec<LeafEntry>) -> Result<Memo, AllocError>
    requires { IsDistinct (paths (kept_in world.now entries.items)) }
    ensures { IfOk result (λ m. m.entries.items ≡ kept_in world.now entries.items) }
{
    match world {
        World::Twice => Memo::of(alloc, Vec::new(alloc)),
        World::Live(_) => Memo::of(alloc, entries),
    }
}

/// The world after a complete schedule from the start of `main`, with this fuel, of which there are
/// at most 4,000,000,000 units; and the memo of the run: one entry for each revision that forks and
/// joins nothing, and none where a revision is joined a second time. Want of memory is the one error.
pub fn record_run<M: MergeBy>(
    alloc: Global,
    setting: &CodeSetting,
    merges: &mut M,
    fuel: u64,
) -> Result<(World, Memo), AllocError>
    requires fuel { fuel ≤ most_fuel }
    requires inputs { length setting.now.inputs.items < 2 ^ 32 }
    requires size { M.size merges.old ≡ count setting.now.code.vars }
    requires merges { AreMergesOf (run_under setting.now) (M.merges merges.old) }
    ensures world { IfOk result (λ r. IsAfter (run_under setting.now) fuel r.0) }
    ensures memo { IfOk result (λ r. IsMemoOf (run_under setting.now) fuel r.1) }
    ensures size { M.size merges.new ≡ M.size merges.old }
    ensures same { M.merges merges.new ≡ M.merges merges.old }
{
    let start = World::begin(alloc, setting, fuel)?;
    let mut recorder = Recorder {
        entries: Vec::new(alloc),
    };
    let end = finish_by(alloc, setting, merges, start, &mut recorder)?;
    match memo_of(alloc, &end, recorder.entries) {
        Ok(memo) => Ok((end, memo)),
        Err(error) => {
            end.give_up();
            Err(error)
        },
    }
}
