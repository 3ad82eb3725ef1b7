//! What is counted of code.

ghost use Rattle.std.specs.Prelude.{◌≡◌, min};
ghost use Rattle.code_rules.specs.Tables as tables;
ghost use Rattle.code_file.specs.Parts as part;

use rev_code::{CodeBlock, CodeVar, Instr};

/// How many locations the variables have, up to the greatest number of 64 bits.
#[tactic(auto, using(crate::proofs::Sums::locations_more))]
pub fn locations(vars: &[CodeVar]) -> u64
    ensures { result ≡ min (tables.locations vars.now) 18446744073709551615 }
{
    let mut total: u64 = 0;
    for var in vars {
        total = total.saturating_add(var.cells as u64);
    }
    total
}

/// How many of the instructions are a `TryJoin`, up to the greatest number of 64 bits.
#[tactic(auto, using(crate::proofs::Sums::tries_in_more))]
fn tries_in(instrs: &[Instr]) -> u64
    ensures { result ≡ min (part.tries_in instrs.now) 18446744073709551615 }
{
    let mut total: u64 = 0;
    for instr in instrs {
        total = total.saturating_add(try_count(*instr));
    }
    total
}

fn try_count(instr: Instr) -> u64
    ensures { result ≡ part.try_count instr }
{
    match instr {
        Instr::TryJoin => 1,
        _ => 0,
    }
}

/// How many instructions of the blocks are a `TryJoin`, up to the greatest number of 64 bits.
#[tactic(auto, using(crate::proofs::Sums::tries_more))]
pub fn tries(blocks: &[CodeBlock]) -> u64
    ensures { result ≡ min (part.tries blocks.now) 18446744073709551615 }
{
    let mut total: u64 = 0;
    for block in blocks {
        total = total.saturating_add(tries_in(block.instrs.as_slice()));
    }
    total
}
