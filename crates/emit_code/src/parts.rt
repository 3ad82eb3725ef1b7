//! The parts of statements.

ghost use Rattle.std.specs.Prelude.{◌≡◌, ◌<◌, ◌+◌, ◌^◌, ◌++◌, OnOk, length, map, option_map};
ghost use Rattle.rev_syntax.specs.View.{expression, print_item, right_side};
ghost use Rattle.code_generation.specs.Sizes.{items_size, returned_size, right_side_size};
ghost use Rattle.code_generation.specs.Statements.{items_code, returned_code, right_side_code};
ghost use Rattle.emit_code.specs.Naming.{numbers_of};
ghost use Rattle.emit_code.specs.Written.{item_code, item_size};

use crate::{Known, emit_arguments, emit_expression, put};
use rev_code::Instr;
use rev_syntax::{Expr, Item, Rhs};
use std::alloc::{AllocError, Global};

/// Writes the code of a right side.
pub fn emit_right_side(
    alloc: Global,
    known: &Known,
    code: &mut Vec<Instr>,
    rhs: &Rhs,
) -> Result<(), AllocError>
    requires { length code.old.items + right_side_size (right_side rhs.now) < 2 ^ 32 }
    ensures { OnOk result
        (code.new.items
        ≡ code.old.items ++ right_side_code (numbers_of known.now.numbers.now) known.now.scope.now
        (right_side rhs.now) (length code.old.items)) }
{
    match rhs {
        Rhs::Plain(e) => emit_expression(alloc, known, code, e),
        Rhs::Call { name, args, .. } => {
            emit_arguments(alloc, known, code, args)?;
            put(code, Instr::Call(known.numbers.proc(name)))
        }
        Rhs::Fork { name, args, .. } => {
            emit_arguments(alloc, known, code, args)?;
            put(code, Instr::Fork(known.numbers.proc(name)))
        }
        Rhs::Try { handle, .. } => {
            emit_expression(alloc, known, code, handle)?;
            put(code, Instr::TryJoin)
        }
    }
}

/// Writes the code of an item of a print: a text has none.
fn emit_item(
    alloc: Global,
    known: &Known,
    code: &mut Vec<Instr>,
    item: &Item,
) -> Result<(), AllocError>
    requires { length code.old.items + item_size (print_item item.now) < 2 ^ 32 }
    ensures { OnOk result
        (code.new.items
        ≡ code.old.items ++ item_code (numbers_of known.now.numbers.now) known.now.scope.now
        (print_item item.now) (length code.old.items)) }
{
    match item {
        Item::Text { .. } => Ok(()),
        Item::Value(e) => emit_expression(alloc, known, code, e),
    }
}

/// Writes the code of the items of a print, in order.
pub fn emit_items(
    alloc: Global,
    known: &Known,
    code: &mut Vec<Instr>,
    items: &[Item],
) -> Result<(), AllocError>
    requires { length code.old.items + items_size (map print_item items.now) < 2 ^ 32 }
    ensures { OnOk result
        (code.new.items
        ≡ code.old.items ++ items_code (numbers_of known.now.numbers.now) known.now.scope.now
        (map print_item items.now) (length code.old.items)) }
{
    for item in items {
        emit_item(alloc, known, code, item)?;
    }
    Ok(())
}

/// Writes the code of a `return`.
pub fn emit_returned(
    alloc: Global,
    known: &Known,
    code: &mut Vec<Instr>,
    value: &Option<Expr>,
) -> Result<(), AllocError>
    requires { length code.old.items + returned_size (option_map expression value.now) < 2 ^ 32 }
    ensures { OnOk result
        (code.new.items
        ≡ code.old.items ++ returned_code (numbers_of known.now.numbers.now) known.now.scope.now
        (option_map expression value.now) (length code.old.items)) }
{
    match value {
        None => put(code, Instr::Return),
        Some(e) => {
            emit_expression(alloc, known, code, e)?;
            put(code, Instr::Return)
        }
    }
}
