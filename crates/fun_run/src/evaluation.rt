//! The value of a fun or merge.

ghost use Rattle.std.specs.Prelude.{◌≡◌, ◌⊎◌, ◌+◌, ◌-◌, ◌<◌, ◌≤◌, ◌^◌, ℕ, List, Some, length};
ghost use Rattle.std.specs.Prelude.{slice_get, slice_index_or, slice_set, take};
ghost use Rattle.rev_code.specs.declared.code.Instr.TheVariants as i;
ghost use Rattle.rev_code.specs.Funs.{values};
ghost use Rattle.rev_code.specs.Step.{cause_of, value_at};
ghost use Rattle.rev_code.specs.Words.{Word};
ghost use Rattle.code_soundness.specs.Funs.{IsArithmetic};
ghost use Rattle.code_soundness.specs.AcceptedCode.{notes_of, IsAccepted};
ghost use Rattle.version_map.specs.Deltas.{at};
ghost use Rattle.version_map.specs.Overlay.{under};
ghost use Rattle.block_run.specs.Area.{count, IsTable};
ghost use Rattle.block_run.specs.Remembering.{Kept};
ghost use Rattle.block_run.specs.Standing.{IsOfValue};
ghost use Rattle.fun_run.specs.Values.{HasRoom, IsArgs, IsThen, IsValue};

use crate::frame::{begin, block_at, params_of};
use block_run::{Memory, Registers, Stop, Variable, run_block};
use rev_code::{Code, CodeBlock, Instr};
use rev_num::{Cause, NumFault};
use version_map::Snapshot;

/// Where the evaluation of a block goes on.
#[derive(Clone, Copy)]
pub enum Then {
    Applies(u16),
    Gives,
}

/// Whether a fun is applied at this place, or the block gives its value.
fn then_at(b: &CodeBlock, at: u32) -> Then
    requires { (slice_get b.now.instrs at ≡ Some i.Return)
        ⊎ ((k : ℕ) × (slice_get b.now.instrs at ≡ Some (i.Apply k))) }
    ensures { IsThen b.now at result }
{
    match b.instrs.as_slice()[at as usize] {
        Instr::Apply(k) => Then::Applies(k),
        _ => Then::Gives,
    }
}

/// The fault of arithmetic that is the cause of a trap.
fn fault_of(cause: Cause) -> NumFault
    requires { IsArithmetic cause }
    ensures { cause ≡ cause_of result }
{
    match cause {
        Cause::ZeroDivisor => NumFault::ZeroDivisor,
        _ => NumFault::Overflow,
    }
}

/// The word on top.
fn top_word(words: &[u64], r: &Registers) -> u64
    requires some { 1 ≤ r.now.top }
    requires within { r.now.top ≤ length words.now }
    ensures { result ≡ slice_index_or words.now (r.now.top - 1) 0 }
{
    words[r.top - 1]
}

/// Goes on behind an application, whose value comes in place of the arguments from `base` on.
fn go_on(words: &mut [u64], r: &mut Registers, base: usize, value: u64)
    requires within { base < length words.old }
    requires place { r.old.at + 1 < 2 ^ 32 }
    ensures words { words.new ≡ slice_set words.old base value }
    ensures registers { r.new ≡ record r.old { at = r.old.at + 1; top = base + 1 } }
{
    words[base] = value;
    r.top = base + 1;
    r.at += 1;
}

/// The value of the fun or merge of this number, or its fault; its arguments are the words from
/// `low` on, where the area has as many words as the block needs. The words below `low` stay. A fun
/// applies funs of lower numbers alone, of which code has at most 256.
pub fn evaluate<P: Snapshot>(
    code: &Code,
    table: &[Variable],
    n: u16,
    memory: &mut Memory<P>,
    words: &mut [u64],
    low: usize,
) -> Result<u64, NumFault>
    requires accepted { IsAccepted code.now (notes_of code.now) }
    requires table { IsTable code.now.vars table.now }
    requires size { P.size memory.old.snapshot ≡ count code.now.vars }
    requires value { IsOfValue code.now n }
    requires room { HasRoom code.now n low (length words.old) }
    requires args { (args : List (Word ℕ)) × IsArgs code.now n args words.old low }
    ensures value { (args : List (Word ℕ)) → IsArgs code.now n args words.old low
        → IsValue (value_at (slice_get (values code.now) n) args) result }
    ensures below { take low words.new ≡ take low words.old }
    ensures kept { Kept (P.size memory.old.snapshot)
        (under memory.old.delta (P.base memory.old.snapshot))
        (under memory.new.delta (P.base memory.new.snapshot))
        (at memory.old.first.roots) (at memory.new.first.roots) }
    ensures size { P.size memory.new.snapshot ≡ P.size memory.old.snapshot }
    ensures group { P.group memory.new.snapshot ≡ P.group memory.old.snapshot }
{
    let b = block_at(code, n);
    let mut r = begin(b, n, words, low);
    loop {
        match run_block(code, table, &[], b, memory, words, &mut r) {
            Stop::Traps(cause) => return Err(fault_of(cause)),
            _ => match then_at(b, r.at) {
                Then::Gives => return Ok(top_word(words, &r)),
                Then::Applies(k) => {
                    let base = r.top - params_of(block_at(code, k));
                    match evaluate(code, table, k, memory, words, base) {
                        Ok(value) => go_on(words, &mut r, base, value),
                        Err(fault) => return Err(fault),
                    }
                },
            },
        }
    }
}
