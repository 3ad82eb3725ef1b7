//! The numbers in code.

ghost use Rattle.std.specs.Prelude.{◌≡◌, ◌<◌, ℕ, Some, length, slice_get};
ghost use Rattle.rev_code.specs.declared.code.Instr.{Instr};
ghost use Rattle.block_run.specs.Agreement.{PushesInt};
ghost use Rattle.fun_run.specs.Merging.{HasShortNumbers};

use crate::rooms::block_in;
use rev_code::{Code, CodeBlock, Instr};

fn instr_at(instrs: &[Instr], at: usize) -> &Instr
    requires { at < length instrs.now }
    ensures { slice_get instrs.now at ≡ Some result.now }
{
    &instrs[at]
}

/// Looks at an instruction: its number, if it has one, has 64 bits, as its type says.
fn note_number(x: &Instr)
    ensures { PushesInt x.now }
{
    match *x {
        Instr::PushInt(_number) => {},
        _ => {},
    }
}

/// Looks at the instructions of a block.
fn note_block(b: &CodeBlock)
    ensures { (at : ℕ) (x : Instr) → slice_get b.now.instrs at ≡ Some x → PushesInt x }
{
    let instrs = b.instrs.as_slice();
    for at in 0..instrs.len() {
        note_number(instr_at(instrs, at));
    }
}

/// Looks at each instruction of code. A reference to code does not tell of what lies inside of it
/// that it has the range of its type, so it is read once.
pub fn note_numbers(code: &Code)
    ensures { HasShortNumbers code.now }
{
    let blocks = code.blocks.as_slice();
    for n in 0..blocks.len() {
        note_block(block_in(blocks, n));
    }
}
