//! A run of verified code by threads, from its store's opening to its close.
ghost use Rattle.std.specs.Prelude.{◌≡◌, ◌≢◌, ◌<◌, ◌^◌, All, IfErr, IfOk, IfSome, length, map};
ghost use Rattle.block_run.specs.Area.{count};
ghost use Rattle.rev_vm.specs.Starts.{run_under};
ghost use Rattle.segment_store.specs.Group.{closed_group, store_group};
ghost use Rattle.segment_store.specs.Names.{IsSeatOf};
ghost use Rattle.hub_core.specs.declared.state.HubState.TheVariants.{NoMemory};
ghost use Rattle.turn_hub.specs.Names.{run_state, run_schedule};
ghost use Rattle.run_revision.specs.CodeRuns.{IsOfCode};
ghost use Rattle.merge_kernels.specs.Terms.{definition};
ghost use Rattle.rev_workers.specs.Hands.{AreMergesFor, IsHandAt};
ghost use Rattle.rev_workers.specs.Plans.{IsPlanFor, planned};
ghost use Rattle.rev_workers.specs.Ran.{IsNotRan};
ghost use Rattle.rev_workers.specs.Runs.{IsRunOfCode, IsSameRun};
ghost use Rattle.rev_workers.specs.Stores.{IsOpened};

use crate::code_run::{NotRun, run_code};
use crate::hands::{StoreRevisions, give_back, hands_for, merges_for};
use crate::merges::KernelMerges;
use fun_run::BlockMerges;
use hub_core::HubState;
use hub_workers::{Finished, Gate};
use leg_run::CodeSetting;
use merge_kernels::KernelPlan;
use rev_vm::start_words;
use segment_store::{Closed, Held, Hold, Spent, Store};
use std::alloc::{AllocError, Global};
use std::sync::Wait;
use std::thread::Threads;
use turn_hub::HubRun;
use version_map::MergeBy;

/// What threads leave of a run that did not end for want of memory.
#[derive(Drop)]
pub struct StoreRan<'a> {
    /// The schedule, the ends and the forkers.
    pub run: HubRun<StoreRevisions<'a, 'a, BlockMerges<'a>>>,
    /// How many children got words of their own, up to 2^64 - 1.
    pub copies: u64,
    /// How many segments of the store were in use at its close.
    pub live: u32,
    /// What the close of the store counted.
    pub closed: Closed,
}

/// Why threads leave no run.
#[derive(Drop)]
pub enum NotRan {
    /// Memory was wanting.
    OutOfMemory,
    /// Segments were in use at the close of the store: a hold was not given back.
    InUse(Closed),
}

// A run, unless memory was wanting, with what is left of all holds.
struct Left<'a> {
    run: Option<HubRun<StoreRevisions<'a, 'a, BlockMerges<'a>>>>,
    all: Spent,
    copies: u64,
}

// A store with the words with which the shared variables start, and its first hold.
fn open_store(
    alloc: Global,
    setting: &CodeSetting,
    segments: u32,
) -> Result<(Store, Hold), AllocError>
    ensures { IfOk result (λ r. IsOpened setting.now.code.vars r.0 r.1) }
{
    let words = start_words(alloc, setting.code())?;
    Store::open(alloc, segments, words)
}

// The run, which has no hold of its store, unless it ended for want of memory.
fn told<'a, 's, M: MergeBy>(
    run: HubRun<StoreRevisions<'a, 's, M>>,
) -> Option<HubRun<StoreRevisions<'a, 'a, BlockMerges<'a>>>>
    ensures { IfSome result (λ r. (run_state r ≢ NoMemory) × IsSameRun run.entry r) }
{
    match run.state() {
        HubState::NoMemory => None,
        HubState::All | HubState::Twice => {
            Some(run.as_of::<StoreRevisions<'a, 'a, BlockMerges<'a>>>())
        },
    }
}

// What is left of a run that has come to its end.
fn left_of<'a, 's, M: MergeBy + Drop>(
    store: &'s Store,
    finished: Finished<StoreRevisions<'a, 's, M>>,
    all: Spent,
) -> Left<'a>
    requires own { IsSeatOf store.now all.seat }
    requires hands { All (IsHandAt store.now) finished.hands.items }
    ensures own { IsSeatOf store.entry.now result.all.seat }
    ensures run { IfSome result.run (λ r. (run_state r ≢ NoMemory)
        × IsSameRun finished.entry.run r) }
{
    let Finished { run, hands } = finished;
    let mut all = all;
    let copies = give_back(store, hands, &mut all);
    Left {
        run: told(run),
        all,
        copies,
    }
}

// A run over an open store, by a thread for each of these merges.
fn run_over<'a, 's, M: MergeBy + Drop + Send + Sync, G: Gate + Sync, R: Threads + Wait + Sync>(
    rt: &R,
    alloc: Global,
    setting: &'a CodeSetting,
    store: &'s Store,
    hold: Hold,
    fuel: u64,
    merges: Vec<M>,
    gate: &G,
) -> Left<'a>
    requires opened { IsOpened setting.now.code.vars store.now hold }
    requires some { (0 < length merges.items) × (length merges.items < 2 ^ 32) }
    requires merges { All (AreMergesFor M.size M.merges setting.now) merges.items }
    ensures own { IsSeatOf store.entry.now result.all.seat }
    ensures state { IfSome result.run (λ r. run_state r ≢ NoMemory) }
    ensures schedule { IfSome result.run (λ r. IsOfCode (run_under setting.entry.now) fuel
        (run_state r) (run_schedule r)) }
    ensures run { IfSome result.run (λ r. IsRunOfCode (run_under setting.entry.now) fuel
        (store_group store.entry.now) r) }
{
    let mut hold = hold;
    let mut all = store.purse(&mut hold);
    let Ok(hands) = hands_for(alloc, setting, fuel, store, &mut hold, merges) else {
        store.gather(&mut all, store.release(hold));
        return Left {
            run: None,
            all,
            copies: 0,
        };
    };
    match run_code(rt, alloc, setting, Held { store, hold }, fuel, hands, gate) {
        Ok(finished) => left_of(store, finished, all),
        Err(NotRun { spent, hands }) => {
            store.gather(&mut all, spent);
            let copies = give_back(store, hands, &mut all);
            Left {
                run: None,
                all,
                copies,
            }
        },
    }
}

// A run over an open store, by a thread for each of these merges by kernels.
fn run_planned<'a, 's, 'k, G: Gate + Sync, R: Threads + Wait + Sync>(
    rt: &R,
    alloc: Global,
    setting: &'a CodeSetting,
    store: &'s Store,
    hold: Hold,
    fuel: u64,
    merges: Vec<KernelMerges<'k, BlockMerges<'a>>>,
    gate: &G,
) -> Left<'a>
    requires opened { IsOpened setting.now.code.vars store.now hold }
    requires some { (0 < length merges.items) × (length merges.items < 2 ^ 32) }
    requires merges { All (AreMergesFor (λ m. count m.inner.code.now.vars)
        (λ m. planned m.inner.code.now m.plan.now.choices.items
        (map (λ k. definition k.def) m.plan.now.kernels.now)) setting.now) merges.items }
    ensures own { IsSeatOf store.entry.now result.all.seat }
    ensures state { IfSome result.run (λ r. run_state r ≢ NoMemory) }
    ensures schedule { IfSome result.run (λ r. IsOfCode (run_under setting.entry.now) fuel
        (run_state r) (run_schedule r)) }
    ensures run { IfSome result.run (λ r. IsRunOfCode (run_under setting.entry.now) fuel
        (store_group store.entry.now) r) }
{
    run_over(rt, alloc, setting, store, hold, fuel, merges, gate)
}

/// A run of `main` of verified code with this fuel, by so many threads over a store of so many
/// segments. Where a thread can't be made, the caller does its work; all threads have ended when it
/// returns. Its schedule is legal for the code and complete, and where a revision was joined a
/// second time that join is its last entry. No segment of the store is in use at its close.
/// The kernels of the plan make the merges where it has a choice.
/// OutOfMemory: memory was wanting. InUse: segments were in use at the close. The code gives all
/// holds back, also where memory was wanting, but no clause counts them.
pub fn run_threads<'a, 'k, G: Gate + Sync, R: Threads + Wait + Sync>(
    rt: &R,
    alloc: Global,
    setting: &'a CodeSetting,
    fuel: u64,
    workers: u32,
    segments: u32,
    gate: &G,
    plan: &'k KernelPlan<'k>,
) -> Result<StoreRan<'a>, NotRan>
    requires some { 0 < workers }
    requires plan { IsPlanFor setting.now.code plan.now.choices.items
        (map (λ k. definition k.def) plan.now.kernels.now) }
    ensures schedule { IfOk result (λ r. IsOfCode (run_under setting.entry.now) fuel
        (run_state r.run) (run_schedule r.run)) }
    ensures state { IfOk result (λ r. run_state r.run ≢ NoMemory) }
    ensures run { IfOk result (λ r. IsRunOfCode (run_under setting.entry.now) fuel
        (closed_group r.closed) r.run) }
    ensures live { IfOk result (λ r. (r.live ≡ r.closed.live) × (r.live ≡ 0)) }
    ensures err { IfErr result IsNotRan }
{
    let Ok(merges) = merges_for(alloc, setting, plan, workers) else {
        return Err(NotRan::OutOfMemory);
    };
    let Ok((store, hold)) = open_store(alloc, setting, segments) else {
        return Err(NotRan::OutOfMemory);
    };
    let Left { run, all, copies } = run_planned(
        rt, alloc, setting, &store, hold, fuel, merges, gate,
    );
    let closed = store.close(all);
    let Some(run) = run else {
        return Err(NotRan::OutOfMemory);
    };
    let live = closed.live();
    if live > 0 {
        return Err(NotRan::InUse(closed));
    }
    Ok(StoreRan {
        run,
        copies,
        live,
        closed,
    })
}
