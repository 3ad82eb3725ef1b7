//! Applications of funs.

ghost use Rattle.std.specs.Prelude.{◌≡◌, ◌<◌, ◌+◌, ◌-◌, ◌^◌, ℕ, IfOk, Some, length};
ghost use Rattle.std.specs.Prelude.{slice_get, slice_set};
ghost use Rattle.rev_code.specs.declared.code.Instr.TheVariants as i;
ghost use Rattle.rev_code.specs.State.{State};
ghost use Rattle.rev_code.specs.Step as step;
ghost use Rattle.version_map.specs.Deltas.{at};
ghost use Rattle.version_map.specs.Overlay.{under};
ghost use Rattle.block_run.specs.Area.{count};
ghost use Rattle.leg_run.specs.Changes.{SameRest};
ghost use Rattle.leg_run.specs.Ends.{TurnsTo};
ghost use Rattle.leg_run.specs.Standing.{Stands};

use crate::calls::ensure;
use crate::revision::{LegEnd, Run};
use crate::setting::CodeSetting;
use crate::turn::BlockExit;
use block_run::Memory;
use fun_run::{block_at, evaluate, params_of};
use rev_code::CodeBlock;
use rev_num::{Cause, NumFault};
use std::alloc::AllocError;
use version_map::Snapshot;

fn cause_of(fault: NumFault) -> Cause
    ensures { result ≡ step.cause_of fault }
{
    match fault {
        NumFault::Overflow => Cause::Overflow,
        NumFault::ZeroDivisor => Cause::ZeroDivisor,
    }
}

/// Goes on behind an application, whose value comes in place of the arguments from `low` on.
fn take_value(run: &mut Run, low: usize, value: u64)
    requires within { low < length run.old.words.items }
    requires place { run.old.registers.at + 1 < 2 ^ 32 }
    ensures words { run.new.words.items ≡ slice_set run.old.words.items low value }
    ensures registers { run.new.registers ≡ record run.old.registers {
      at = run.old.registers.at + 1;
      top = low + 1;
    } }
    ensures below { run.new.below.items ≡ run.old.below.items }
    ensures rest { SameRest run.old run.new }
{
    run.words.as_mut_slice()[low] = value;
    run.registers.top = low + 1;
    run.registers.at += 1;
}

/// Applies a fun: its value comes in place of the arguments, or it faults.
#[inline(always)]
pub fn apply<P: Snapshot>(
    setting: &CodeSetting,
    memory: &mut Memory<P>,
    run: &mut Run,
    b: &CodeBlock,
    n: u16,
) -> Result<BlockExit, AllocError>
    requires size { P.size memory.old.snapshot ≡ count setting.now.code.vars }
    requires block { slice_get setting.now.code.blocks run.old.registers.block ≡ Some b.now }
    requires instr { slice_get b.now.instrs run.old.registers.at ≡ Some (i.Apply n) }
    requires stands { (c : State ℕ)
        × Stands setting.now.code setting.now.inputs.items setting.now.share run.old
        (under memory.old.delta (P.base memory.old.snapshot)) (at memory.old.first.roots) c }
    ensures turns { IfOk result (λ t. (c : State ℕ)
        → Stands setting.now.code setting.now.inputs.items setting.now.share run.old
        (under memory.old.delta (P.base memory.old.snapshot)) (at memory.old.first.roots) c
        → TurnsTo setting.now.code setting.now.inputs.items setting.now.share c t run.new
        (under memory.new.delta (P.base memory.new.snapshot)) (at memory.new.first.roots)) }
    ensures size { P.size memory.new.snapshot ≡ P.size memory.old.snapshot }
    ensures group { P.group memory.new.snapshot ≡ P.group memory.old.snapshot }
{
    let applied = block_at(&setting.code, n);
    let low = run.registers.top - params_of(applied);
    ensure(&mut run.words, low + setting.room(n))?;
    let table = setting.table.as_slice();
    match evaluate(
        &setting.code,
        table,
        n,
        memory,
        run.words.as_mut_slice(),
        low,
    ) {
        Ok(value) => {
            take_value(run, low, value);
            Ok(BlockExit::Goes)
        },
        Err(fault) => Ok(BlockExit::Ends(LegEnd::Trap(cause_of(fault)))),
    }
}
