//! Where the locations of shared variables lie.

ghost use Rattle.std.specs.Prelude.{◌≡◌, ◌+◌, ◌<◌, ◌^◌, IfOk, IfSome};
ghost use Rattle.rev_num.specs.Words.{int_of};
ghost use Rattle.rev_code.specs.Variables.{Place, cell_at};
ghost use Rattle.code_soundness.specs.AcceptedCode.{notes_of, IsAccepted};
ghost use Rattle.block_run.specs.Area.{IsTable, table_from};

use crate::registers::Variable;
use rev_code::Code;
use std::alloc::{AllocError, Global};

/// Where each shared variable of the code lies.
pub fn table_of(alloc: Global, code: &Code) -> Result<Vec<Variable>, AllocError>
    requires { IsAccepted code.now (notes_of code.now) }
    ensures listed { IfOk result (λ table. table.items ≡ table_from 0 code.now.vars) }
    ensures table { IfOk result (λ table. IsTable code.now.vars table.items) }
{
    let vars = code.vars.as_slice();
    let mut table = Vec::new(alloc);
    let mut first = 0;
    for at in 0..vars.len() {
        let cells = vars[at].cells;
        table.push(Variable { first, cells })?;
        first += cells;
    }
    Ok(table)
}

/// The location of a cell, where the index is inside.
#[inline(always)]
pub(crate) fn cell(t: Variable, index: u64) -> Option<u32>
    requires { t.first + t.cells < 2 ^ 32 }
    ensures value { (p : Place) → p.first ≡ t.first → p.var.cells ≡ t.cells
        → result ≡ cell_at p (int_of index) }
    ensures within { IfSome result (λ l. l < t.first + t.cells) }
{
    if index < t.cells as u64 {
        Some(t.first + index as u32)
    } else {
        None
    }
}
