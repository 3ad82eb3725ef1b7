//! Code that grows, and jumps whose targets are written once they are known.

ghost use Rattle.std.specs.Prelude.{◌≡◌, ◌<◌, ◌^◌, ◌++◌, ◌∷◌, [], OnOk, length, slice_set};

use rev_code::Instr;
use std::alloc::AllocError;

/// The place of the next instruction.
pub fn here(code: &Vec<Instr>) -> u32
    requires { length code.now.items < 2 ^ 32 }
    ensures { result ≡ length code.now.items }
{
    code.len() as u32
}

/// Writes an instruction behind the others.
pub fn put(code: &mut Vec<Instr>, x: Instr) -> Result<(), AllocError>
    ensures { OnOk result (code.new.items ≡ code.old.items ++ x ∷ []) }
{
    code.push(x)?;
    Ok(())
}

/// Writes an instruction over the one at this place, and nothing where there is none.
pub fn patch(code: &mut Vec<Instr>, at: usize, x: Instr)
    ensures { code.new.items ≡ slice_set code.old.items at x }
{
    if let Some(old) = code.get_mut(at) {
        *old = x;
    }
}
