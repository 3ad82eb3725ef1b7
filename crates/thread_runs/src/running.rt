//! A run of verified code by threads.

ghost use Rattle.std.specs.Prelude.{◌≡◌, ◌≤◌, IfOk, map};
ghost use Rattle.rev_num.specs.Limits.{most_fuel};
ghost use Rattle.code_machine_laws.specs.Outcomes.{HasOutcome};
ghost use Rattle.merge_kernels.specs.Terms.{definition};
ghost use Rattle.rev_workers.specs.Plans.{IsPlanFor};
ghost use Rattle.thread_runs.specs.Runs.{IsRunOf};

use crate::ran::Ran;
use crate::{outcome_of_run, owned_ends};
use code_runs::note_inputs;
use code_verifier::Verified;
use hub_workers::Gate;
use leg_run::CodeSetting;
use merge_kernels::KernelPlan;
use rev_workers::{StoreRan as Left, run_threads as run_over_store};
use std::alloc::{AllocError, Global};
use std::sync::Wait;
use std::thread::Threads;

/// A run of verified code with these inputs, share and fuel, of which there are at most
/// 4,000,000,000 units, by so many threads, of which the caller is one. A thread enters the gate
/// before each leg. Revisions share what they have not written in so many segments at most; where
/// none is free a fork copies. At locations with a choice of the plan its kernels make the merges,
/// and the run hands out the choices of the plan that it was given. All threads have ended when it
/// returns. Want of memory is the one error, which stands for segments in use at the close of the
/// store too. No clause tells of threads, of the gate, of copies, or that a kernel is called.
pub fn run_threads<'k, R: Threads + Wait + Sync, G: Gate + Sync>(
    rt: &R,
    alloc: Global,
    code: Verified,
    inputs: Vec<i64>,
    share: u64,
    fuel: u64,
    workers: u32,
    segments: u32,
    gate: &G,
    plan: KernelPlan<'k>,
) -> Result<Ran, AllocError>
    requires fuel { fuel ≤ most_fuel }
    requires workers { 1 ≤ workers }
    requires plan { IsPlanFor code.code plan.choices.items
        (map (λ k. definition k.def) plan.kernels.now) }
    ensures choices { IfOk result (λ r. r.choices ≡ plan.entry.choices) }
    ensures run { IfOk result (λ r. IsRunOf
        (record { code = code.code; inputs = inputs.items; share = share }) fuel r) }
    ensures outcome { IfOk result (λ r. HasOutcome
        (record { code = code.code; inputs = inputs.items; share = share }) fuel r.outcome) }
{
    note_inputs(&inputs);
    let setting = CodeSetting::new(alloc, code.into_code(), inputs, share)?;
    let Ok(left) = run_over_store(rt, alloc, &setting, fuel, workers, segments, gate, &plan) else {
        return Err(AllocError);
    };
    let outcome = outcome_of_run(alloc, &setting, &left.run)?;
    let Left {
        run,
        copies,
        live,
        closed,
    } = left;
    let (order, kept) = run.into_schedule();
    let ends = owned_ends(alloc, kept)?;
    Ok(Ran {
        outcome,
        order,
        ends,
        choices: plan.into_choices(),
        copies,
        live,
        closed,
    })
}
