//! Runs of verified code that are recorded, and runs that take over what is valid of these.

ghost use Rattle.std.specs.Prelude.{◌≤◌, ◌<◌, ◌^◌, IfOk, List, length};
ghost use Rattle.rev_num.specs.Limits.{most_fuel};
ghost use Rattle.code_memos.specs.Leaf.{Known};
ghost use Rattle.code_machine_laws.specs.Outcomes.{HasOutcome};
ghost use Rattle.rev_record.specs.Memos.{HasEntries, IsMemoOf, Reuses};

use crate::{Memo, record_run, repeat};
use code_runs::{note_inputs, outcome_after};
use code_verifier::Verified;
use fun_run::BlockMerges;
use leg_run::CodeSetting;
use rev_num::Outcome;
use std::alloc::{AllocError, Global};

/// The outcome of a run, and how many of its revisions had a valid entry in a memo.
#[derive(Drop)]
pub struct RepeatedRun {
    pub outcome: Outcome,
    pub reused: u64,
}

/// What is kept of a run of verified code with these inputs, share and fuel, of which there are at
/// most 4,000,000,000 units. Want of memory is the one error.
pub fn record_code(
    alloc: Global,
    code: Verified,
    inputs: Vec<i64>,
    share: u64,
    fuel: u64,
) -> Result<Memo, AllocError>
    requires fuel { fuel ≤ most_fuel }
    requires inputs { length inputs.items < 2 ^ 32 }
    ensures { IfOk result (λ m. IsMemoOf
        (record { code = code.code; inputs = inputs.items; share = share }) fuel m) }
{
    note_inputs(&inputs);
    let setting = CodeSetting::new(alloc, code.into_code(), inputs, share)?;
    let mut merges = BlockMerges::of(alloc, setting.code())?;
    let (world, memo) = record_run(alloc, &setting, &mut merges, fuel)?;
    world.give_up();
    Ok(memo)
}

/// The outcome of verified code with these inputs, share and fuel, of which there are at most
/// 4,000,000,000 units, and how many of its leaf revisions have a valid entry in a memo that was
/// recorded with the same code: their ends are taken over from there. Want of memory is the one
/// error.
pub fn repeat_code(
    alloc: Global,
    code: Verified,
    inputs: Vec<i64>,
    share: u64,
    fuel: u64,
    memo: &Memo,
) -> Result<RepeatedRun, AllocError>
    requires fuel { fuel ≤ most_fuel }
    requires memo { (es : List Known) × HasEntries code.code memo.now es }
    ensures outcome { IfOk result (λ r. HasOutcome
        (record { code = code.code; inputs = inputs.items; share = share }) fuel r.outcome) }
    ensures reused { (es : List Known) → HasEntries code.code memo.now es → IfOk result (λ r. Reuses
        (record { code = code.code; inputs = inputs.items; share = share }) fuel es r.reused) }
{
    note_inputs(&inputs);
    let setting = CodeSetting::new(alloc, code.into_code(), inputs, share)?;
    let mut merges = BlockMerges::of(alloc, setting.code())?;
    let (world, reused) = repeat(alloc, &setting, &mut merges, fuel, memo)?;
    let outcome = outcome_after(alloc, &setting, world)?;
    Ok(RepeatedRun { outcome, reused })
}
