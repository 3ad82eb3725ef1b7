//! Two runs, of which the first may find that memory is wanting.

ghost use Rattle.std.specs.Prelude.{◌≡◌};
ghost use Rattle.block_run.specs.Area.{count};
ghost use Rattle.fun_run.specs.Merging.{AreMergesOf};
ghost use Rattle.rev_vm.specs.Starts.{run_under};

use crate::codes::{code_of, left_under, setting_of};
use fun_run::BlockMerges;
use leg_run::CodeSetting;
use rev_code::{Code, Instr};
use std::alloc::{AllocError, Global};
use version_map::MergeBy;

/// What each run prints.
const PRINTED: &str = "7\n7\n10\n";

/// A child that calls, applies a fun, prints and writes a cumulative cell, and `main`, which forks
/// and joins it and writes the same cell.
fn code(alloc: Global) -> Result<Code, AllocError> {
    let child: &[Instr] = &[
        Instr::Charge(9),
        Instr::PushInt(6),
        Instr::PushInt(2),
        Instr::PushInt(1),
        Instr::Apply(0),
        Instr::Print(0),
        Instr::Charge(10),
        Instr::PushInt(4),
        Instr::PushInt(5),
        Instr::StoreCell(1),
        Instr::Return,
    ];
    let main: &[Instr] = &[
        Instr::Charge(2),
        Instr::Fork(2),
        Instr::StoreLocal(2),
        Instr::Charge(3),
        Instr::PushInt(4),
        Instr::PushInt(20),
        Instr::StoreCell(1),
        Instr::Charge(4),
        Instr::Call(2),
        Instr::Charge(5),
        Instr::LoadLocal(2),
        Instr::Join,
        Instr::Charge(6),
        Instr::PushInt(4),
        Instr::LoadCell(1),
        Instr::Print(0),
        Instr::Return,
    ];
    code_of(alloc, child, main)
}

/// Whether the run comes to its end and leaves this text.
fn comes_to<M: MergeBy>(
    alloc: Global,
    setting: &CodeSetting,
    merges: &mut M,
    text: &str,
) -> Result<bool, AllocError>
    requires size { M.size merges.old ≡ count setting.now.code.vars }
    requires merges { AreMergesOf (run_under setting.now) (M.merges merges.old) }
    ensures merges_size { M.size merges.new ≡ M.size merges.old }
    ensures merges_same { M.merges merges.new ≡ M.merges merges.old }
{
    match left_under(alloc, setting, merges, 3)? {
        None => Ok(false),
        Some(end) => Ok(end.text.as_slice() == text.as_bytes()),
    }
}

/// What two runs come to, one behind the other, under one setting and with the same merges. Where
/// memory is wanting in the first, the second goes on with what that has borrowed.
pub fn two_runs(alloc: Global) -> Result<(Result<bool, AllocError>, bool), AllocError> {
    let Some(setting) = setting_of(alloc, code(alloc)?, Vec::new(alloc))? else {
        return Ok((Ok(false), false));
    };
    let program = setting.code();
    let mut merges = BlockMerges::of(alloc, program)?;
    let first = comes_to(alloc, &setting, &mut merges, PRINTED);
    let second = comes_to(alloc, &setting, &mut merges, PRINTED)?;
    Ok((first, second))
}
