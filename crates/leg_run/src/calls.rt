//! Calls and returns.

ghost use Rattle.std.specs.Prelude.{◌≡◌, ◌<◌, ◌≤◌, ◌+◌, ◌-◌, ◌^◌, ◌++◌};
ghost use Rattle.std.specs.Prelude.{ℕ, IfOk, Option};
ghost use Rattle.std.specs.Prelude.{Some, drop, length, replicate, slice_get, take};
ghost use Rattle.rev_code.specs.declared.code.Instr.TheVariants as i;
ghost use Rattle.rev_code.specs.State.{State};
ghost use Rattle.rev_code.specs.Step.{params};
ghost use Rattle.block_run.specs.Area.{low};
ghost use Rattle.leg_run.specs.Changes.{Entered, SameRest, returned, results};
ghost use Rattle.leg_run.specs.Ends.{TurnsTo};
ghost use Rattle.leg_run.specs.Standing.{Stands};

use crate::revision::{LegEnd, Run, Waiting};
use crate::setting::CodeSetting;
use crate::turn::BlockExit;
use block_run::Registers;
use fun_run::{begin, block_at};
use rev_code::CodeBlock;
use rev_num::{Cause, MOST_FRAMES};
use std::alloc::AllocError;

/// Sees to it that an area has this many words.
pub fn ensure(words: &mut Vec<u64>, size: usize) -> Result<(), AllocError>
    ensures kept { take (length words.old.items) words.new.items ≡ words.old.items }
    ensures long { length words.old.items ≤ length words.new.items }
    ensures enough { IfOk result (λ _. size ≤ length words.new.items) }
{
    if words.len() < size {
        words.resize(size, 0)?;
    }
    Ok(())
}

/// Makes room for a frame of a block, whose arguments are the words from `low` on, and begins it.
#[inline(always)]
fn begin_frame(
    words: &mut Vec<u64>,
    called: &CodeBlock,
    n: u16,
    low: usize,
    room: usize,
) -> Result<Registers, AllocError>
    requires args { low + length (params called.now) ≤ length words.old.items }
    requires room { room < 2 ^ 32 }
    requires frame { length called.now.locals ≤ room }
    ensures registers { IfOk result (λ r. r ≡ record {
      block = n;
      at = 0;
      base = low;
      top = low + length called.now.locals;
      fuel = 0;
      line = 0;
    }) }
    ensures locals { IfOk result (λ _. take (length called.now.locals) (drop low words.new.items)
        ≡ take (length (params called.now)) (drop low words.old.items)
        ++ replicate (length called.now.locals - length (params called.now)) 0) }
    ensures beneath { IfOk result (λ _. take low words.new.items ≡ take low words.old.items) }
    ensures long { IfOk result (λ _. length words.old.items ≤ length words.new.items) }
    ensures enough { IfOk result (λ _. low + room ≤ length words.new.items) }
{
    ensure(words, low + room)?;
    Ok(begin(called, n, words.as_mut_slice(), low))
}

/// Where the stack of a frame begins.
fn low_of(b: &CodeBlock, r: &Registers) -> usize
    requires { low b.now r.now < 2 ^ 64 }
    ensures { result ≡ low b.now r.now }
{
    r.base + b.locals.as_slice().len()
}

/// Begins a frame of a block, whose arguments are the words on the stack of the frame that calls.
#[inline(always)]
fn enter(
    run: &mut Run,
    b: &CodeBlock,
    n: u16,
    called: &CodeBlock,
    room: usize,
) -> Result<(), AllocError>
    requires place { run.old.registers.at + 1 < 2 ^ 32 }
    requires args { low b.now run.old.registers + length (params called.now)
        ≤ length run.old.words.items }
    requires room { room < 2 ^ 32 }
    requires frame { length called.now.locals ≤ room }
    ensures { IfOk result (λ _. Entered b.now n called.now room run.old run.new) }
{
    let low = low_of(b, &run.registers);
    let frame = begin_frame(&mut run.words, called, n, low, room)?;
    run.below.push(Waiting {
        block: run.registers.block,
        at: run.registers.at + 1,
        base: run.registers.base,
    })?;
    run.registers.block = frame.block;
    run.registers.at = frame.at;
    run.registers.base = frame.base;
    run.registers.top = frame.top;
    Ok(())
}

/// Calls a block, or traps where the revision has 1,000 frames already.
#[inline(always)]
pub fn call(
    setting: &CodeSetting,
    run: &mut Run,
    b: &CodeBlock,
    n: u16,
) -> Result<BlockExit, AllocError>
    requires block { slice_get setting.now.code.blocks run.old.registers.block ≡ Some b.now }
    requires instr { slice_get b.now.instrs run.old.registers.at ≡ Some (i.Call n) }
    requires stands { (seen : ℕ → ℕ) × (root : ℕ → Option ℕ) × (c : State ℕ)
        × Stands setting.now.code setting.now.inputs.items setting.now.share run.old seen root c }
    ensures { IfOk result (λ t. (seen : ℕ → ℕ) (root : ℕ → Option ℕ) (c : State ℕ)
        → Stands setting.now.code setting.now.inputs.items setting.now.share run.old seen root c
        → TurnsTo setting.now.code setting.now.inputs.items setting.now.share c t run.new seen
        root) }
{
    if run.below.len() + 1 >= MOST_FRAMES {
        return Ok(BlockExit::Ends(LegEnd::Trap(Cause::CallDepth)));
    }
    let called = block_at(&setting.code, n);
    enter(run, b, n, called, setting.room(n))?;
    Ok(BlockExit::Goes)
}

/// Moves the result of a block, if it has one, to where its frame began, and gives the place behind
/// it.
fn move_result(words: &mut [u64], r: &Registers, b: &CodeBlock) -> usize
    requires base { r.now.base + results b.now.result ≤ r.now.top }
    requires top { r.now.top ≤ length words.old }
    ensures words { words.new ≡ returned b.now.result r.now words.old }
    ensures top { result ≡ r.now.base + results b.now.result }
{
    match b.result {
        None => r.base,
        Some(_) => {
            words[r.base] = words[r.top - 1];
            r.base + 1
        },
    }
}

/// Goes on in a frame that waited, with the result on its stack.
fn go_back(run: &mut Run, b: &CodeBlock, w: Waiting)
    requires base { run.old.registers.base + results b.now.result ≤ run.old.registers.top }
    requires top { run.old.registers.top ≤ length run.old.words.items }
    ensures registers { run.new.registers ≡ record {
      block = w.block;
      at = w.at;
      base = w.base;
      top = run.old.registers.base + results b.now.result;
      fuel = run.old.registers.fuel;
      line = run.old.registers.line;
    } }
    ensures below { run.new.below.items ≡ run.old.below.items }
    ensures words { run.new.words.items
        ≡ returned b.now.result run.old.registers run.old.words.items }
    ensures rest { SameRest run.old run.new }
{
    let top = move_result(run.words.as_mut_slice(), &run.registers, b);
    run.registers.block = w.block;
    run.registers.at = w.at;
    run.registers.base = w.base;
    run.registers.top = top;
}

/// Returns to the frame below; in the first frame the revision ends.
#[inline(always)]
pub fn leave(setting: &CodeSetting, run: &mut Run, b: &CodeBlock) -> BlockExit
    requires block { slice_get setting.now.code.blocks run.old.registers.block ≡ Some b.now }
    requires instr { slice_get b.now.instrs run.old.registers.at ≡ Some i.Return }
    requires stands { (seen : ℕ → ℕ) × (root : ℕ → Option ℕ) × (c : State ℕ)
        × Stands setting.now.code setting.now.inputs.items setting.now.share run.old seen root c }
    ensures { (seen : ℕ → ℕ) (root : ℕ → Option ℕ) (c : State ℕ)
        → Stands setting.now.code setting.now.inputs.items setting.now.share run.old seen root c
        → TurnsTo setting.now.code setting.now.inputs.items setting.now.share c result run.new seen
        root }
{
    match run.below.pop() {
        None => BlockExit::Ends(LegEnd::End),
        Some(w) => {
            go_back(run, b, w);
            BlockExit::Goes
        },
    }
}
