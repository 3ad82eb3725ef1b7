//! Instructions of one block in a row.

ghost use Rattle.std.specs.Prelude.{◌≡◌, ◌<◌, ◌^◌, ℕ, true, Some, length, slice_get, take};
ghost use Rattle.rev_code.specs.State.{State};
ghost use Rattle.code_soundness.specs.AcceptedCode.{notes_of, IsAccepted};
ghost use Rattle.block_run.specs.Agreement.{AreInputs};
ghost use Rattle.version_map.specs.Deltas.{at};
ghost use Rattle.version_map.specs.Overlay.{under};
ghost use Rattle.code_rules.specs.Pass.{is_value_class};
ghost use Rattle.block_run.specs.Area.{count, IsTable};
ghost use Rattle.block_run.specs.Remembering.{Kept};
ghost use Rattle.block_run.specs.Standing.{Ends, Here, IsRoomy, Mode};

use crate::instruction::act;
use crate::memory::Memory;
use crate::notes::Notes;
use crate::registers::{Act, Registers, Stop, Variable};
use rev_code::{Code, CodeBlock, Instr};
use version_map::Snapshot;

/// The instruction at a place.
#[inline(always)]
pub fn fetch(instrs: &[Instr], at: u32) -> &Instr
    requires { at < length instrs.now }
    ensures { slice_get instrs.now at ≡ Some result.now }
{
    &instrs[at as usize]
}

/// Does instructions of a block up to a trap, or to one that leaves the block or meets another
/// revision. The words below the frame stay, and in a fun or merge all locations do.
pub fn run_block<P: Snapshot>(
    code: &Code,
    table: &[Variable],
    inputs: &[i64],
    b: &CodeBlock,
    memory: &mut Memory<P>,
    words: &mut [u64],
    registers: &mut Registers,
) -> Stop
    requires accepted { IsAccepted code.now (notes_of code.now) }
    requires table { IsTable code.now.vars table.now }
    requires inputs { AreInputs inputs.now }
    requires size { P.size memory.old.snapshot ≡ count code.now.vars }
    requires block { slice_get code.now.blocks registers.old.block ≡ Some b.now }
    requires short { length b.now.instrs < 2 ^ 32 }
    requires stands { (m : Mode) × (c : State ℕ)
        × Here code.now inputs.now m b.now c words.old registers.old
        (under memory.old.delta (P.base memory.old.snapshot)) (at memory.old.first.roots) }
    requires room { IsRoomy code.now b.now registers.old (length words.old) }
    ensures ends { (m : Mode) (c : State ℕ)
        → Here code.now inputs.now m b.now c words.old registers.old
        (under memory.old.delta (P.base memory.old.snapshot)) (at memory.old.first.roots)
        → Ends code.now inputs.now m b.now c result words.new registers.new
        (under memory.new.delta (P.base memory.new.snapshot)) (at memory.new.first.roots) }
    ensures kept { is_value_class b.now.class ≡ true → Kept (P.size memory.old.snapshot)
        (under memory.old.delta (P.base memory.old.snapshot))
        (under memory.new.delta (P.base memory.new.snapshot))
        (at memory.old.first.roots) (at memory.new.first.roots) }
    ensures block { registers.new.block ≡ registers.old.block }
    ensures base { registers.new.base ≡ registers.old.base }
    ensures below { take registers.old.base words.new ≡ take registers.old.base words.old }
    ensures size { P.size memory.new.snapshot ≡ P.size memory.old.snapshot }
    ensures group { P.group memory.new.snapshot ≡ P.group memory.old.snapshot }
{
    let mut r = Registers {
        block: registers.block,
        at: registers.at,
        base: registers.base,
        top: registers.top,
        fuel: registers.fuel,
        line: registers.line,
    };
    let mut notes = Notes::Off;
    let instrs = b.instrs.as_slice();
    let mut x = fetch(instrs, r.at);
    loop {
        match act::<P, false>(code, table, inputs, b, memory, words, &mut r, x, &mut notes) {
            Act::Goes => x = fetch(instrs, r.at),
            last => {
                registers.at = r.at;
                registers.top = r.top;
                registers.fuel = r.fuel;
                registers.line = r.line;
                return last.stop();
            },
        }
    }
}
