//! Verified code of a well-typed program.
#![tactic(auto)]

ghost use Rattle.std.specs.Prelude.{◌≡◌, IfOk};
ghost use Rattle.rev_syntax.specs.View.{program as whole};
ghost use Rattle.code_generation.specs.Generated.{code_of};

use code_verifier::Verified;
use emit_program::emit;
use std::alloc::{AllocError, Global};
use typed_programs::Typed;

/// The code of a well-typed program, which keeps the rules on code. Nothing but want of memory
/// stands in the way.
pub fn generate(alloc: Global, typed: &Typed) -> Result<Verified, AllocError>
    ensures { IfOk result (λ v. v.code ≡ code_of (whole typed.now.expanded.program)) }
{
    let code = emit(alloc, typed)?;
    Ok(Verified::proved(code))
}
