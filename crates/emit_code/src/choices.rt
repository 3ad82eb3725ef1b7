//! The jumps of an `if` to its end.

ghost use Rattle.std.specs.Prelude.{◌≡◌, ◌<◌, ◌^◌, ◌++◌, OnOk, length};
ghost use Rattle.emit_code.specs.Bodies.{landed, leap_or, place_or};

use crate::{here, patch, put};
use rev_code::Instr;
use std::alloc::AllocError;

/// Writes the jump behind an arm, which has no target yet, where something is behind.
pub fn emit_leap(code: &mut Vec<Instr>, ends: &mut Vec<usize>, more: bool) -> Result<(), AllocError>
    ensures code { OnOk result (code.new.items ≡ code.old.items ++ leap_or more) }
    ensures ends { OnOk result
        (ends.new.items ≡ ends.old.items ++ place_or more (length code.old.items)) }
{
    if more {
        ends.push(code.len())?;
        put(code, Instr::Jump(0))?;
    }
    Ok(())
}

/// Writes the targets of jumps to here.
pub fn land(code: &mut Vec<Instr>, ends: &[usize])
    requires { length code.old.items < 2 ^ 32 }
    ensures { code.new.items ≡ landed ends.now (length code.old.items) code.old.items }
{
    let end = here(code);
    for at in ends {
        patch(code, *at, Instr::Jump(end));
    }
}
