//! Joins.

ghost use Rattle.std.specs.Prelude.{◌≡◌, ◌-◌, ◌≤◌, ℕ, Option, Some, length, slice_get};
ghost use Rattle.std.specs.Prelude.{slice_index_or};
ghost use Rattle.rev_code.specs.Funs.{setting as program};
ghost use Rattle.rev_code.specs.State.{State};
ghost use Rattle.leg_run.specs.Ends.{EndsAt, join_instr, join_of};
ghost use Rattle.leg_run.specs.Standing.{Stands};

use crate::revision::{LegEnd, Run};
use crate::setting::CodeSetting;
use rev_code::CodeBlock;
use rev_num::Cause;

/// The join of the handle on top of the stack, or the trap where it is none.
fn join_on_top(words: &[u64], top: usize, is_try: bool) -> LegEnd
    requires some { 1 ≤ top }
    requires within { top ≤ length words.now }
    ensures { result ≡ join_of is_try (slice_index_or words.now (top - 1) 0) }
{
    let word = words[top - 1];
    if word == 0 {
        LegEnd::Trap(Cause::JoinNone)
    } else {
        LegEnd::Join {
            is_try,
            on: word - 1,
        }
    }
}

/// Joins, or traps where the handle is none.
pub fn join(setting: &CodeSetting, run: &Run, b: &CodeBlock, is_try: bool) -> LegEnd
    requires block { slice_get setting.now.code.blocks run.now.registers.block ≡ Some b.now }
    requires instr { slice_get b.now.instrs run.now.registers.at ≡ Some (join_instr is_try) }
    requires stands { (seen : ℕ → ℕ) × (root : ℕ → Option ℕ) × (c : State ℕ)
        × Stands setting.now.code setting.now.inputs.items setting.now.share run.now seen root c }
    ensures { (seen : ℕ → ℕ) (root : ℕ → Option ℕ) (c : State ℕ)
        → Stands setting.now.code setting.now.inputs.items setting.now.share run.now seen root c
        → EndsAt (program setting.now.code setting.now.inputs.items setting.now.share) c result }
{
    join_on_top(run.words.as_slice(), run.registers.top, is_try)
}
