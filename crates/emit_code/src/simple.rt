//! Statements that hold no block.

ghost use Rattle.std.specs.Prelude.{◌≡◌, ◌<◌, ◌+◌, ◌^◌, OnOk, length, map, option_map};
ghost use Rattle.rev_syntax.specs.Trees as tree;
ghost use Rattle.rev_syntax.specs.Trees.{PlacedName};
ghost use Rattle.rev_syntax.specs.View.{expression, expressions, placed_name, print_item};
ghost use Rattle.rev_syntax.specs.View.{right_side};
ghost use Rattle.code_generation.specs.Sizes.{right_side_size};
ghost use Rattle.emit_code.specs.Naming.{numbers_of};
ghost use Rattle.emit_code.specs.Written.{HasRoom, with_form};

use crate::parts::{emit_items, emit_returned, emit_right_side};
use crate::{Known, emit_arguments, emit_expression, put};
use rev_code::Instr;
use rev_syntax::{Expr, Item, Name, Rhs};
use std::alloc::{AllocError, Global};

/// A `let` of any name, whose local has this number.
pub fn emit_bind(
    alloc: Global,
    known: &Known,
    code: &mut Vec<Instr>,
    local: u8,
    rhs: &Rhs,
) -> Result<(), AllocError>
    requires { length code.old.items + right_side_size (right_side rhs.now) < 2 ^ 32 }
    ensures { (w : PlacedName) → OnOk result
        (code.new.items
        ≡ with_form (numbers_of known.now.numbers.now) known.now.scope.now
        (tree.bind w (right_side rhs.now)) local 0 code.old.items) }
{
    emit_right_side(alloc, known, code, rhs)?;
    put(code, Instr::StoreLocal(local))
}

/// An assignment to a local or to a shared scalar.
pub fn emit_assign(
    alloc: Global,
    known: &Known,
    code: &mut Vec<Instr>,
    name: &Name,
    rhs: &Rhs,
) -> Result<(), AllocError>
    requires { HasRoom (numbers_of known.now.numbers.now)
        (tree.assign (placed_name name.now) (right_side rhs.now)) code.old.items }
    ensures { OnOk result
        (code.new.items
        ≡ with_form (numbers_of known.now.numbers.now) known.now.scope.now
        (tree.assign (placed_name name.now) (right_side rhs.now)) 0 0 code.old.items) }
{
    emit_right_side(alloc, known, code, rhs)?;
    put(code, known.store(name))
}

/// An assignment to a cell: the index is tested before the value is taken.
pub fn emit_assign_cell(
    alloc: Global,
    known: &Known,
    code: &mut Vec<Instr>,
    name: &Name,
    index: &Expr,
    value: &Expr,
) -> Result<(), AllocError>
    requires { HasRoom (numbers_of known.now.numbers.now)
        (tree.assign_cell (placed_name name.now) (expression index.now) (expression value.now))
        code.old.items }
    ensures { OnOk result
        (code.new.items
        ≡ with_form (numbers_of known.now.numbers.now) known.now.scope.now
        (tree.assign_cell (placed_name name.now) (expression index.now) (expression value.now)) 0 0
        code.old.items) }
{
    let var = known.numbers.var(name);
    emit_expression(alloc, known, code, index)?;
    put(code, Instr::CheckCell(var))?;
    emit_expression(alloc, known, code, value)?;
    put(code, Instr::StoreCell(var))
}

/// A call, whose result is dropped where it leaves one.
pub fn emit_call(
    alloc: Global,
    known: &Known,
    code: &mut Vec<Instr>,
    name: &Name,
    args: &[Expr],
) -> Result<(), AllocError>
    requires { HasRoom (numbers_of known.now.numbers.now)
        (tree.call (placed_name name.now) (expressions args.now)) code.old.items }
    ensures { OnOk result
        (code.new.items
        ≡ with_form (numbers_of known.now.numbers.now) known.now.scope.now
        (tree.call (placed_name name.now) (expressions args.now)) 0 0 code.old.items) }
{
    emit_arguments(alloc, known, code, args)?;
    put(code, Instr::Call(known.numbers.proc(name)))?;
    if known.numbers.gives(name) {
        put(code, Instr::Pop)
    } else {
        Ok(())
    }
}

/// A `return`.
pub fn emit_return(
    alloc: Global,
    known: &Known,
    code: &mut Vec<Instr>,
    value: &Option<Expr>,
) -> Result<(), AllocError>
    requires { HasRoom (numbers_of known.now.numbers.now)
        (tree.return (option_map expression value.now)) code.old.items }
    ensures { OnOk result
        (code.new.items
        ≡ with_form (numbers_of known.now.numbers.now) known.now.scope.now
        (tree.return (option_map expression value.now)) 0 0 code.old.items) }
{
    emit_returned(alloc, known, code, value)
}

/// A fork, whose handle is dropped.
pub fn emit_fork(
    alloc: Global,
    known: &Known,
    code: &mut Vec<Instr>,
    name: &Name,
    args: &[Expr],
) -> Result<(), AllocError>
    requires { HasRoom (numbers_of known.now.numbers.now)
        (tree.fork (placed_name name.now) (expressions args.now)) code.old.items }
    ensures { OnOk result
        (code.new.items
        ≡ with_form (numbers_of known.now.numbers.now) known.now.scope.now
        (tree.fork (placed_name name.now) (expressions args.now)) 0 0 code.old.items) }
{
    emit_arguments(alloc, known, code, args)?;
    put(code, Instr::Fork(known.numbers.proc(name)))?;
    put(code, Instr::Pop)
}

/// A join.
pub fn emit_join(
    alloc: Global,
    known: &Known,
    code: &mut Vec<Instr>,
    handle: &Expr,
) -> Result<(), AllocError>
    requires { HasRoom (numbers_of known.now.numbers.now)
        (tree.join (expression handle.now)) code.old.items }
    ensures { OnOk result
        (code.new.items
        ≡ with_form (numbers_of known.now.numbers.now) known.now.scope.now
        (tree.join (expression handle.now)) 0 0 code.old.items) }
{
    emit_expression(alloc, known, code, handle)?;
    put(code, Instr::Join)
}

/// A print, whose layout has this number.
pub fn emit_print(
    alloc: Global,
    known: &Known,
    code: &mut Vec<Instr>,
    layout: u32,
    items: &[Item],
) -> Result<(), AllocError>
    requires { HasRoom (numbers_of known.now.numbers.now)
        (tree.print (map print_item items.now)) code.old.items }
    ensures { OnOk result
        (code.new.items
        ≡ with_form (numbers_of known.now.numbers.now) known.now.scope.now
        (tree.print (map print_item items.now)) 0 layout code.old.items) }
{
    emit_items(alloc, known, code, items)?;
    put(code, Instr::Print(layout))
}

/// An assertion.
pub fn emit_assert(
    alloc: Global,
    known: &Known,
    code: &mut Vec<Instr>,
    test: &Expr,
) -> Result<(), AllocError>
    requires { HasRoom (numbers_of known.now.numbers.now)
        (tree.assert (expression test.now)) code.old.items }
    ensures { OnOk result
        (code.new.items
        ≡ with_form (numbers_of known.now.numbers.now) known.now.scope.now
        (tree.assert (expression test.now)) 0 0 code.old.items) }
{
    emit_expression(alloc, known, code, test)?;
    put(code, Instr::Assert)
}
