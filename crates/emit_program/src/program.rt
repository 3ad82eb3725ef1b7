//! The whole code.

ghost use Rattle.std.specs.Prelude.{◌≡◌, IfOk, map};
ghost use Rattle.rev_syntax.specs.View.{program as whole};
ghost use Rattle.rev_kinds.specs.Walk.{names_of};
ghost use Rattle.typed_programs.specs.Layout.{variables};
ghost use Rattle.typed_programs.specs.Scopes.{outside};
ghost use Rattle.code_generation.specs.Generated.{code_of, var_of};
ghost use Rattle.code_generation.specs.Numbers as numbering;
ghost use Rattle.emit_code.specs.Naming.{numbers_of};

use crate::blocks::value_blocks;
use crate::bodies::emit_bodies;
use crate::listed::Listed;
use crate::numbers::name_numbers;
use crate::values::emit_values;
use crate::variables::code_vars;
use emit_code::NameNumbers;
use rev_code::{Code, CodeVar};
use rev_kinds::Checker;
use rev_num::Items;
use rev_types::name_tables;
use std::alloc::{AllocError, Global};
use typed_programs::Typed;

/// The code of a well-typed program, by its variables, the numbers of its names and what these
/// names mean.
fn emit_numbered(
    alloc: Global,
    typed: &Typed,
    vars: Items<CodeVar>,
    numbers: &NameNumbers,
    checker: &Checker,
) -> Result<Code, AllocError>
    requires variables { vars
        ≡ map (var_of (whole typed.now.expanded.program).declarations)
        (variables (whole typed.now.expanded.program)) }
    requires numbered { numbers_of numbers.now
        ≡ numbering.numbers (whole typed.now.expanded.program) }
    requires named { names_of checker.now
        ≡ outside (whole typed.now.expanded.program).declarations }
    ensures { IfOk result (λ code. code ≡ code_of (whole typed.now.expanded.program)) }
{
    let program = &typed.expanded.program;
    let mut blocks = emit_values(alloc, numbers, &program.decls)?;
    let listed = emit_bodies(alloc, numbers, checker, &mut blocks, program)?;
    let Listed { texts, layouts, .. } = listed;
    Ok(Code {
        vars,
        texts: Items::from_vec(texts),
        layouts: Items::from_vec(layouts),
        blocks: Items::from_vec(blocks),
    })
}

/// The code of a well-typed program.
pub fn emit(alloc: Global, typed: &Typed) -> Result<Code, AllocError>
    ensures { IfOk result (λ code. code ≡ code_of (whole typed.now.expanded.program)) }
{
    let program = &typed.expanded.program;
    let values = value_blocks(alloc, &program.decls)?;
    let vars = code_vars(alloc, &values, typed)?;
    let numbers = name_numbers(alloc, program, values.next)?;
    let names = name_tables(alloc, &program.decls)?;
    let checker = Checker {
        shared: &names.shared,
        procs: &names.procs,
        funs: &names.funs,
        inside: false,
    };
    emit_numbered(alloc, typed, vars, &numbers, &checker)
}
