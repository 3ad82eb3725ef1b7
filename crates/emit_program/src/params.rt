//! The locals that parameters are.

ghost use Rattle.std.specs.Prelude.{◌≡◌, ◌<◌, ◌^◌, [], IfOk, length, map};
ghost use Rattle.rev_syntax.specs.View.{parameter, placed_name};
ghost use Rattle.typed_programs.specs.Scopes as scopes;
ghost use Rattle.code_generation.specs.Numbers.{with_params};
ghost use Rattle.code_generation.specs.Generated.{kinds_of, merge_scope};

use name_tables::NameTable;
use rev_kinds::Locals;
use rev_num::ValueKind;
use rev_syntax::{Name, Param};
use std::alloc::{AllocError, Global};

/// The numbers of the parameters of a fun or a procedure.
pub fn params_scope(alloc: Global, params: &[Param]) -> Result<NameTable<u8>, AllocError>
    requires { length params.now < 2 ^ 8 }
    ensures { IfOk result (λ s. s ≡ with_params [] 0 (map parameter params.now)) }
{
    let mut scope = NameTable::new(alloc);
    let mut next = 0u8;
    for p in params {
        scope.add(alloc, &p.name.text, next)?;
        next += 1;
    }
    Ok(scope)
}

/// The numbers of the parameters of a merge.
pub fn merge_scope(
    alloc: Global,
    main: &Name,
    join: &Name,
    root: &Name,
) -> Result<NameTable<u8>, AllocError>
    ensures { IfOk result
        (λ s. s ≡ merge_scope (placed_name main.now) (placed_name join.now)
        (placed_name root.now)) }
{
    let mut scope = NameTable::new(alloc);
    scope.add(alloc, &main.text, 0)?;
    scope.add(alloc, &join.text, 1)?;
    scope.add(alloc, &root.text, 2)?;
    Ok(scope)
}

/// The kinds of parameters by their names.
pub fn params_locals(alloc: Global, params: &[Param]) -> Result<Locals, AllocError>
    ensures { IfOk result (λ l. l ≡ scopes.with_params [] (map parameter params.now)) }
{
    let mut locals = NameTable::new(alloc);
    for p in params {
        locals.add(alloc, &p.name.text, Some(p.kind))?;
    }
    Ok(locals)
}

/// The kinds of parameters.
pub fn params_kinds(alloc: Global, params: &[Param]) -> Result<Vec<ValueKind>, AllocError>
    ensures { IfOk result (λ ks. ks.items ≡ kinds_of (map parameter params.now)) }
{
    let mut kinds = Vec::new(alloc);
    for p in params {
        kinds.push(p.kind)?;
    }
    Ok(kinds)
}
