//! A run of verified code by threads, over the holds of a store.
ghost use Rattle.std.specs.Prelude.{◌≡◌, ◌<◌, ◌^◌, length, All, IfErr, IfOk, vec_len};
ghost use Rattle.block_run.specs.Area.{count};
ghost use Rattle.rev_vm.specs.Opening.{StartsWith};
ghost use Rattle.rev_vm.specs.Starts.{run_under};
ghost use Rattle.segment_store.specs.Group.{hold_group, spent_group};
ghost use Rattle.segment_store.specs.Names.{base};
ghost use Rattle.turn_hub.specs.Names.{run_state, run_schedule};
ghost use Rattle.run_revision.specs.CodeRuns.{IsOfCode};
ghost use Rattle.rev_workers.specs.Runs.{IsRunOfCode};

use crate::hands::{StoreHand, StoreRevisions};
use hub_workers::{Finished, Gate, NotBegun, run};
use leg_run::CodeSetting;
use run_revision::CodeRunner;
use segment_store::{Held, Spent};
use std::alloc::Global;
use std::sync::Wait;
use std::thread::Threads;
use version_map::{MergeBy, Snapshot};

/// What is left of the snapshot with which a run was to begin that memory was wanting for, and the
/// hands that were to work at it.
pub struct NotRun<'a, 's, M: MergeBy> {
    pub spent: Spent,
    pub hands: Vec<StoreHand<'a, 's, M>>,
}

/// A run of `main` with this fuel, over a snapshot with the words with which the shared variables
/// start, by one thread for each hand, of which there is one at least and fewer than 2^32. Its
/// schedule is legal for the code, and complete where no halt was entered. The error is want of
/// memory.
pub fn run_code<'a, 's, M: MergeBy + Send + Sync, G: Gate + Sync, R: Threads + Wait + Sync>(
    rt: &R,
    alloc: Global,
    setting: &'a CodeSetting,
    snapshot: Held<'s>,
    fuel: u64,
    hands: Vec<StoreHand<'a, 's, M>>,
    gate: &G,
) -> Result<Finished<StoreRevisions<'a, 's, M>>, NotRun<'a, 's, M>>
    requires size { vec_len snapshot.store.now.initial ≡ count setting.now.code.vars }
    requires base { StartsWith setting.now.code.vars (base snapshot.store.now snapshot.hold) }
    requires some { (0 < length hands.items) × (length hands.items < 2 ^ 32) }
    requires hands { All (λ h. (h.run ≡ run_under setting.now) × (h.fuel ≡ fuel)
        × (h.group ≡ hold_group snapshot.hold)) hands.items }
    ensures schedule { IfOk result (λ f. IsOfCode (run_under setting.entry.now) fuel
        (run_state f.run) (run_schedule f.run)) }
    ensures run { IfOk result (λ f. IsRunOfCode (run_under setting.entry.now) fuel
        (hold_group snapshot.entry.hold) f.run) }
    ensures hands { IfOk result
        (λ f. All (λ h. h.group ≡ hold_group snapshot.entry.hold) f.hands.items) }
    ensures many { IfOk result (λ f. length f.hands.items ≡ length hands.entry.items) }
    ensures err { IfErr result (λ n. (spent_group n.spent ≡ hold_group snapshot.entry.hold)
        × (n.hands ≡ hands.entry)) }
{
    match CodeRunner::start(alloc, setting, snapshot, fuel) {
        Ok(first) => match run::<StoreRevisions<'a, 's, M>, G, R>(rt, alloc, first, hands, gate) {
            Ok(finished) => Ok(finished),
            Err(NotBegun { first, hands }) => Err(NotRun {
                spent: first.give_up(),
                hands,
            }),
        },
        Err(snapshot) => Err(NotRun {
            spent: snapshot.release(),
            hands,
        }),
    }
}
