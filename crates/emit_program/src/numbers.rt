//! The numbers of names.

ghost use Rattle.std.specs.Prelude.{◌≡◌, ◌<◌, ◌+◌, ◌^◌, [], IfOk, OnOk, length};
ghost use Rattle.rev_syntax.specs.View.{declaration, program as whole};
ghost use Rattle.typed_programs.specs.Layout.{variables};
ghost use Rattle.typed_programs.specs.Limits.{funs, procs};
ghost use Rattle.code_generation.specs.Numbers.{numbers};
ghost use Rattle.emit_code.specs.Naming.{numbers_of};
ghost use Rattle.emit_program.specs.Numbering.{HasRoom, entered, proc_count, value_count};
ghost use Rattle.emit_program.specs.Numbering.{var_count, with_declaration};

use emit_code::{NameNumbers, Numbered};
use name_tables::NameTable;
use rev_syntax::{Decl, Program};
use std::alloc::{AllocError, Global};

/// Nothing has a name yet.
fn none_named(alloc: Global, next: u16) -> Numbered
    ensures table { result.table ≡ [] }
    ensures next { result.next ≡ next }
{
    Numbered {
        table: NameTable::new(alloc),
        next,
    }
}

/// Gives a name the next number, unless it has one. The number is spent in either case.
fn enter(alloc: Global, numbered: &mut Numbered, name: &[u8]) -> Result<(), AllocError>
    requires { numbered.old.next + 1 < 2 ^ 16 }
    ensures { OnOk result (numbered.new ≡ entered numbered.old name.now) }
{
    numbered.table.add(alloc, name, numbered.next)?;
    numbered.next += 1;
    Ok(())
}

/// Enters the name of a declaration.
fn enter_declaration(alloc: Global, numbers: &mut NameNumbers, d: &Decl) -> Result<(), AllocError>
    requires { HasRoom numbers.old (var_count (declaration d.now))
        (value_count (declaration d.now)) (proc_count (declaration d.now)) }
    ensures { OnOk result (numbers.new ≡ with_declaration numbers.old (declaration d.now)) }
{
    match d {
        Decl::Shared { name, .. } => enter(alloc, &mut numbers.vars, &name.text),
        Decl::Fun { name, .. } => enter(alloc, &mut numbers.funs, &name.text),
        Decl::Merge { .. } => {
            numbers.funs.next += 1;
            Ok(())
        }
        Decl::Proc { name, result, .. } => {
            enter(alloc, &mut numbers.procs, &name.text)?;
            numbers.gives.add(alloc, &name.text, result.is_some())
        }
    }
}

/// The numbers of the names of a program, whose first procedure has this block.
pub fn name_numbers(
    alloc: Global,
    program: &Program,
    first_proc: u16,
) -> Result<NameNumbers, AllocError>
    requires first { first_proc ≡ funs (whole program.now).declarations }
    requires vars { length (variables (whole program.now)) < 2 ^ 16 }
    requires blocks { funs (whole program.now).declarations + procs (whole program.now).declarations
        < 2 ^ 16 }
    ensures { IfOk result (λ n. numbers_of n ≡ numbers (whole program.now)) }
{
    let mut numbers = NameNumbers {
        vars: none_named(alloc, 0),
        funs: none_named(alloc, 0),
        procs: none_named(alloc, first_proc),
        gives: NameTable::new(alloc),
    };
    for d in &program.decls {
        enter_declaration(alloc, &mut numbers, d)?;
    }
    Ok(numbers)
}
