//! The frame of a fun or merge.

ghost use Rattle.std.specs.Prelude.{◌≡◌, ◌+◌, ◌-◌, ◌≤◌, ◌++◌, Some, drop, length, replicate};
ghost use Rattle.std.specs.Prelude.{slice_get, take};
ghost use Rattle.rev_code.specs.declared.code.CodeBlock.{CodeBlock};
ghost use Rattle.rev_code.specs.Step.{params};

use block_run::Registers;
use rev_code::{Code, CodeBlock};

/// The block of a number.
pub fn block_at(code: &Code, n: u16) -> &CodeBlock
    requires { (b : CodeBlock) × (slice_get code.now.blocks n ≡ Some b) }
    ensures { slice_get code.now.blocks n ≡ Some result.now }
{
    &code.blocks.as_slice()[n as usize]
}

/// How many parameters a block has.
pub fn params_of(b: &CodeBlock) -> usize
    ensures { result ≡ length (params b.now) }
{
    usize::min(b.params as usize, b.locals.as_slice().len())
}

/// A frame of the block whose arguments are the words from `low` on; its other locals are 0.
pub fn begin(b: &CodeBlock, n: u16, words: &mut [u64], low: usize) -> Registers
    requires { low + length b.now.locals ≤ length words.old }
    ensures registers { result ≡ record {
      block = n;
      at = 0;
      base = low;
      top = low + length b.now.locals;
      fuel = 0;
      line = 0;
    } }
    ensures locals { take (length b.now.locals) (drop low words.new)
        ≡ take (length (params b.now)) (drop low words.old)
        ++ replicate (length b.now.locals - length (params b.now)) 0 }
    ensures below { take low words.new ≡ take low words.old }
{
    let first = low + params_of(b);
    let top = low + b.locals.as_slice().len();
    for at in first..top {
        words[at] = 0;
    }
    Registers {
        block: n,
        at: 0,
        base: low,
        top,
        fuel: 0,
        line: 0,
    }
}
