//! Instructions of one block of a leg in a row, with notes of what they read or without.

ghost use Rattle.std.specs.Prelude.{◌≡◌, ◌<◌, ◌^◌, ℕ, Some, length, slice_get, take};
ghost use Rattle.rev_code.specs.State.{State};
ghost use Rattle.code_soundness.specs.AcceptedCode.{notes_of, IsAccepted};
ghost use Rattle.block_run.specs.Agreement.{AreInputs};
ghost use Rattle.version_map.specs.Deltas.{at};
ghost use Rattle.version_map.specs.Overlay.{under};
ghost use Rattle.block_run.specs.Area.{count, IsTable};
ghost use Rattle.block_run.specs.Standing.{Here, IsRoomy, Mode};
ghost use Rattle.leg_run.specs.Runs.{EndsNoting};
ghost use Rattle.block_run.specs.WhereOn.{HasPlacesIfOn};

use block_run::{Act, Memory, Notes, Registers, Stop, Variable, act, fetch};
use rev_code::{Code, CodeBlock};
use version_map::Snapshot;

/// Does as `run_block` does, and with `NOTING` notes what the instructions read where notes are on.
/// So the compiler makes a loop of each case, and in that without nothing looks at the notes. It is
/// not made a part of its caller, whose own variables would take the registers of the processor.
#[inline(never)]
pub fn run_leg_block<P: Snapshot, const NOTING: bool>(
    code: &Code,
    table: &[Variable],
    inputs: &[i64],
    b: &CodeBlock,
    memory: &mut Memory<P>,
    words: &mut [u64],
    registers: &mut Registers,
    notes: &mut Notes,
) -> Stop
    requires accepted { IsAccepted code.now (notes_of code.now) }
    requires table { IsTable code.now.vars table.now }
    requires inputs { AreInputs inputs.now }
    requires size { P.size memory.old.snapshot ≡ count code.now.vars }
    requires block { slice_get code.now.blocks registers.old.block ≡ Some b.now }
    requires short { length b.now.instrs < 2 ^ 32 }
    requires stands { (m : Mode) × (c : State ℕ)
        × Here code.now inputs.now m b.now c words.old registers.old
        (under memory.old.delta (P.base memory.old.snapshot)) (at memory.old.first.roots) }
    requires room { IsRoomy code.now b.now registers.old (length words.old) }
    requires places { HasPlacesIfOn (count code.now.vars) inputs.now notes.old }
    ensures ends { (m : Mode) (c : State ℕ)
        → Here code.now inputs.now m b.now c words.old registers.old
        (under memory.old.delta (P.base memory.old.snapshot)) (at memory.old.first.roots)
        → EndsNoting NOTING code.now inputs.now m b.now c result words.new registers.new
        (under memory.new.delta (P.base memory.new.snapshot)) (at memory.new.first.roots)
        notes.old notes.new }
    ensures block { registers.new.block ≡ registers.old.block }
    ensures base { registers.new.base ≡ registers.old.base }
    ensures below { take registers.old.base words.new ≡ take registers.old.base words.old }
    ensures size { P.size memory.new.snapshot ≡ P.size memory.old.snapshot }
    ensures group { P.group memory.new.snapshot ≡ P.group memory.old.snapshot }
{
    let mut r = Registers {
        block: registers.block,
        at: registers.at,
        base: registers.base,
        top: registers.top,
        fuel: registers.fuel,
        line: registers.line,
    };
    let instrs = b.instrs.as_slice();
    let mut x = fetch(instrs, r.at);
    loop {
        match act::<P, NOTING>(code, table, inputs, b, memory, words, &mut r, x, notes) {
            Act::Goes => x = fetch(instrs, r.at),
            last => {
                registers.at = r.at;
                registers.top = r.top;
                registers.fuel = r.fuel;
                registers.line = r.line;
                return last.stop();
            },
        }
    }
}
