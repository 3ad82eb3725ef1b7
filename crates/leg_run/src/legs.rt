//! Legs, with notes of what they read where notes are on.

ghost use Rattle.std.specs.Prelude.{◌≡◌, ◌<◌, true, ℕ, IfOk, Some, length, slice_get};
ghost use Rattle.rev_code.specs.declared.code.Instr.{Instr};
ghost use Rattle.rev_code.specs.State.{State};
ghost use Rattle.version_map.specs.Deltas.{at};
ghost use Rattle.version_map.specs.Overlay.{under};
ghost use Rattle.block_run.specs.Area.{count};
ghost use Rattle.block_run.specs.Standing.{leaves_block};
ghost use Rattle.leg_run.specs.Ends.{LegEnds, TurnsTo};
ghost use Rattle.leg_run.specs.Noting.{HasNotedLeg, HasPlacesIfOn, RoundTo};
ghost use Rattle.leg_run.specs.Standing.{IsStanding, Stands, state_of};

use crate::apply_fun::apply;
use crate::block::run_leg_block;
use crate::calls::{call, leave};
use crate::joins::join;
use crate::prints::print;
use crate::revision::{LegEnd, Run, RunningRevision};
use crate::setting::CodeSetting;
use crate::turn::BlockExit;
use block_run::{Memory, Notes, Stop};
use fun_run::block_at;
use rev_code::{CodeBlock, Instr};
use std::alloc::AllocError;
use version_map::Snapshot;

/// The instruction at a place.
fn instr_at(b: &CodeBlock, at: u32) -> Instr
    requires { at < length b.now.instrs }
    ensures { slice_get b.now.instrs at ≡ Some result }
{
    b.instrs.as_slice()[at as usize]
}

/// Does an instruction that leaves its block, or ends the leg there.
#[inline(always)]
fn turn_at<P: Snapshot>(
    setting: &CodeSetting,
    memory: &mut Memory<P>,
    run: &mut Run,
    b: &CodeBlock,
) -> Result<BlockExit, AllocError>
    requires size { P.size memory.old.snapshot ≡ count setting.now.code.vars }
    requires block { slice_get setting.now.code.blocks run.old.registers.block ≡ Some b.now }
    requires leaves { (x : Instr) × (slice_get b.now.instrs run.old.registers.at ≡ Some x)
        × (leaves_block x ≡ true) }
    requires stands { (c : State ℕ)
        × Stands setting.now.code setting.now.inputs.items setting.now.share run.old
        (under memory.old.delta (P.base memory.old.snapshot)) (at memory.old.first.roots) c }
    ensures turns { IfOk result (λ t. (c : State ℕ)
        → Stands setting.now.code setting.now.inputs.items setting.now.share run.old
        (under memory.old.delta (P.base memory.old.snapshot)) (at memory.old.first.roots) c
        → TurnsTo setting.now.code setting.now.inputs.items setting.now.share c t run.new
        (under memory.new.delta (P.base memory.new.snapshot)) (at memory.new.first.roots)) }
    ensures size { P.size memory.new.snapshot ≡ P.size memory.old.snapshot }
    ensures group { P.group memory.new.snapshot ≡ P.group memory.old.snapshot }
{
    match instr_at(b, run.registers.at) {
        Instr::Apply(n) => apply(setting, memory, run, b, n),
        Instr::Call(n) => call(setting, run, b, n),
        Instr::Print(n) => {
            print(setting, run, b, n)?;
            Ok(BlockExit::Goes)
        },
        Instr::Fork(n) => Ok(BlockExit::Ends(LegEnd::Fork(n))),
        Instr::Join => Ok(BlockExit::Ends(join(setting, run, b, false))),
        Instr::TryJoin => Ok(BlockExit::Ends(join(setting, run, b, true))),
        _ => Ok(leave(setting, run, b)),
    }
}

/// Does instructions of a block, and then the one that leaves it, or ends the leg there; with
/// `NOTING` and notes that are on it notes what they read.
fn go_on<P: Snapshot, const NOTING: bool>(
    setting: &CodeSetting,
    memory: &mut Memory<P>,
    run: &mut Run,
    notes: &mut Notes,
) -> Result<BlockExit, AllocError>
    requires size { P.size memory.old.snapshot ≡ count setting.now.code.vars }
    requires stands { (c : State ℕ)
        × Stands setting.now.code setting.now.inputs.items setting.now.share run.old
        (under memory.old.delta (P.base memory.old.snapshot)) (at memory.old.first.roots) c }
    requires places { HasPlacesIfOn (count setting.now.code.vars) setting.now.inputs.items
        notes.old }
    ensures rounds { IfOk result (λ t. (c : State ℕ)
        → Stands setting.now.code setting.now.inputs.items setting.now.share run.old
        (under memory.old.delta (P.base memory.old.snapshot)) (at memory.old.first.roots) c
        → RoundTo NOTING setting.now.code setting.now.inputs.items setting.now.share c t run.new
        (under memory.new.delta (P.base memory.new.snapshot)) (at memory.new.first.roots)
        notes.old notes.new) }
    ensures size { P.size memory.new.snapshot ≡ P.size memory.old.snapshot }
    ensures group { P.group memory.new.snapshot ≡ P.group memory.old.snapshot }
{
    let b = block_at(&setting.code, run.registers.block);
    let table = setting.table.as_slice();
    let inputs = setting.inputs.as_slice();
    let words = run.words.as_mut_slice();
    match run_leg_block::<P, NOTING>(
        &setting.code,
        table,
        inputs,
        b,
        memory,
        words,
        &mut run.registers,
        notes,
    ) {
        Stop::Traps(cause) => Ok(BlockExit::Ends(LegEnd::Trap(cause))),
        _ => turn_at(setting, memory, run, b),
    }
}

/// Does the instructions of a leg up to its event. With `NOTING` it notes what they read where
/// notes are on, and without it notes nothing: so the compiler makes a loop of each case, and that
/// of a leg without notes looks at none. The error is want of memory, after which nothing is said of
/// where the revision stands, and nothing of the notes.
pub fn run<P: Snapshot, const NOTING: bool>(
    setting: &CodeSetting,
    revision: &mut RunningRevision<P>,
    notes: &mut Notes,
) -> Result<LegEnd, AllocError>
    requires size { P.size revision.old.memory.snapshot ≡ count setting.now.code.vars }
    requires stands { IsStanding setting.now.code setting.now.inputs.items setting.now.share
        revision.old.run (under revision.old.memory.delta (P.base revision.old.memory.snapshot))
        (at revision.old.memory.first.roots) }
    requires places { HasPlacesIfOn (count setting.now.code.vars) setting.now.inputs.items
        notes.old }
    ensures leg { IfOk result (λ e.
        LegEnds setting.now.code setting.now.inputs.items setting.now.share
        (state_of setting.now.code revision.old.run
        (under revision.old.memory.delta (P.base revision.old.memory.snapshot))
        (at revision.old.memory.first.roots)) e revision.new.run
        (under revision.new.memory.delta (P.base revision.new.memory.snapshot))
        (at revision.new.memory.first.roots)) }
    ensures noted { IfOk result (λ _.
        HasNotedLeg NOTING setting.now.code setting.now.inputs.items setting.now.share
        (state_of setting.now.code revision.old.run
        (under revision.old.memory.delta (P.base revision.old.memory.snapshot))
        (at revision.old.memory.first.roots)) notes.old notes.new) }
    ensures size { P.size revision.new.memory.snapshot ≡ P.size revision.old.memory.snapshot }
    ensures group { P.group revision.new.memory.snapshot ≡ P.group revision.old.memory.snapshot }
{
    loop {
        match go_on::<P, NOTING>(setting, &mut revision.memory, &mut revision.run, notes)? {
            BlockExit::Goes => {},
            BlockExit::Ends(end) => return Ok(end),
        }
    }
}
