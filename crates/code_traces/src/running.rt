//! One run of verified code, to its outcome and its trace.

ghost use Rattle.std.specs.Prelude.{◌≤◌, ℕ, IfOk};
ghost use Rattle.rev_num.specs.Limits.{most_fuel};
ghost use Rattle.code_machine_laws.specs.Outcomes.{HasOutcome};
ghost use Rattle.rev_vm.specs.Starts.{run_under};
ghost use Rattle.code_traces.specs.Traced.{HasTrace, IsNotedAfter};

use crate::listing::trace_of;
use code_runs::{note_inputs, outcome_of};
use code_verifier::Verified;
use code_world::{MainEnd, World};
use fun_run::BlockMerges;
use leg_run::CodeSetting;
use rev_num::Outcome;
use std::alloc::{AllocError, Global};
use trace_diagram::Trace;
use world_runs::{Noted, finish_noting, first_notes};

/// What a run comes to: its outcome, and its trace, of which there is none where a revision was
/// joined a second time.
#[derive(Drop)]
pub struct TracedRun {
    pub outcome: Outcome,
    pub trace: Option<Trace>,
}

/// The outcome and the trace of the code, from its world after a complete schedule and the notes of
/// its revisions. All revisions are let go.
fn traced_after(
    alloc: Global,
    setting: &CodeSetting,
    world: World,
    notes: Vec<Noted>,
) -> Result<TracedRun, AllocError>
    requires over { (fuel : ℕ) × IsNotedAfter (run_under setting.now) fuel world notes.items }
    ensures outcome { IfOk result (λ t. (fuel : ℕ)
        → IsNotedAfter (run_under setting.now) fuel world notes.items
        → HasOutcome (run_under setting.now) fuel t.outcome) }
    ensures trace { IfOk result (λ t. (fuel : ℕ)
        → IsNotedAfter (run_under setting.now) fuel world notes.items
        → HasTrace (run_under setting.now) fuel t.trace) }
{
    match world.into_main() {
        None => Ok(TracedRun {
            outcome: Outcome::Twice,
            trace: None,
        }),
        Some(MainEnd { end, births }) => {
            let births = births.as_slice();
            let trace = trace_of(alloc, setting, births, notes)?;
            let outcome = outcome_of(alloc, setting, births, end)?;
            Ok(TracedRun {
                outcome,
                trace: Some(trace),
            })
        },
    }
}

/// The outcome and the trace of verified code with these inputs, share and fuel, of which there are
/// at most 4,000,000,000 units. It runs on one thread; no complete schedule has another outcome or
/// another trace. Want of memory is the one error.
pub fn trace_code(
    alloc: Global,
    code: Verified,
    inputs: Vec<i64>,
    share: u64,
    fuel: u64,
) -> Result<TracedRun, AllocError>
    requires { fuel ≤ most_fuel }
    ensures outcome { IfOk result (λ t. HasOutcome
        (record { code = code.code; inputs = inputs.items; share = share }) fuel t.outcome) }
    ensures trace { IfOk result (λ t. HasTrace
        (record { code = code.code; inputs = inputs.items; share = share }) fuel t.trace) }
{
    note_inputs(&inputs);
    let setting = CodeSetting::new(alloc, code.into_code(), inputs, share)?;
    let mut merges = BlockMerges::of(alloc, setting.code())?;
    let mut notes = first_notes(alloc)?;
    let start = World::begin(alloc, &setting, fuel)?;
    let end = finish_noting(alloc, &setting, &mut merges, start, &mut notes)?;
    let run = traced_after(alloc, &setting, end, notes)?;
    Ok(run)
}
