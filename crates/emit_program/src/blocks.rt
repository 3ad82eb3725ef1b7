//! The blocks of funs and merges.

ghost use Rattle.std.specs.Prelude.{◌≡◌, ◌<◌, ◌+◌, ◌^◌, ◌++◌, IfOk, OnOk, map};
ghost use Rattle.rev_syntax.specs.View.{declaration};
ghost use Rattle.typed_programs.specs.Limits.{funs};
ghost use Rattle.emit_program.specs.Numbering.{merge_at, merges_from, value_count};

use rev_syntax::Decl;
use std::alloc::{AllocError, Global};

/// The blocks of the merges in order, and the first block behind those of funs and merges.
#[derive(Drop)]
pub struct ValueBlocks {
    pub merges: Vec<u16>,
    pub next: u16,
}

impl ValueBlocks {
    /// Goes past a declaration.
    fn pass(&mut self, d: &Decl) -> Result<(), AllocError>
        requires { self.old.next + value_count (declaration d.now) < 2 ^ 16 }
        ensures merges { OnOk result
            (self.new.merges.items
            ≡ self.old.merges.items ++ merge_at self.old.next (declaration d.now)) }
        ensures next { OnOk result
            (self.new.next ≡ self.old.next + value_count (declaration d.now)) }
    {
        match d {
            Decl::Fun { .. } => {
                self.next += 1;
                Ok(())
            }
            Decl::Merge { .. } => {
                self.merges.push(self.next)?;
                self.next += 1;
                Ok(())
            }
            Decl::Shared { .. } => Ok(()),
            Decl::Proc { .. } => Ok(()),
        }
    }
}

/// The blocks of the funs and merges of a program.
pub fn value_blocks(alloc: Global, decls: &[Decl]) -> Result<ValueBlocks, AllocError>
    requires { funs (map declaration decls.now) < 2 ^ 16 }
    ensures merges { IfOk result
        (λ b. b.merges.items ≡ merges_from 0 (map declaration decls.now)) }
    ensures next { IfOk result (λ b. b.next ≡ funs (map declaration decls.now)) }
{
    let mut blocks = ValueBlocks {
        merges: Vec::new(alloc),
        next: 0,
    };
    for d in decls {
        blocks.pass(d)?;
    }
    Ok(blocks)
}
