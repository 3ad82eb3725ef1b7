//! The code of a block of statements, with that of each form: lets, lines, branches, arms and loops.

ghost use Rattle.std.specs.Prelude.{◌≡◌, ◌<◌, ◌+◌, ◌^◌, ◌++◌, IfOk, OnOk, length, map, nat_lt};
ghost use Rattle.std.specs.Prelude.{◌||◌};
ghost use Rattle.rev_syntax.specs.Trees as tree;
ghost use Rattle.rev_syntax.specs.View.{arm as pair, arms, block, expression, placed_name};
ghost use Rattle.rev_syntax.specs.View.{print_item, right_side, statement_form, stmt};
ghost use Rattle.typed_programs.specs.Limits.{arms_lets, statement_form_lets, statement_lets};
ghost use Rattle.typed_programs.specs.Limits.{statements_lets};
ghost use Rattle.code_generation.specs.Numbers.{scope_after, scope_after_form};
ghost use Rattle.code_generation.specs.Expressions.{expression_size};
ghost use Rattle.code_generation.specs.Sizes.{arms_prints, arms_size, statement_form_prints};
ghost use Rattle.code_generation.specs.Sizes.{statement_prints, statement_size};
ghost use Rattle.code_generation.specs.Sizes.{statements_prints, statements_size};
ghost use Rattle.code_generation.specs.Statements.{arms_code, statement_code, statement_form_code};
ghost use Rattle.code_generation.specs.Statements.{statements_code};
ghost use Rattle.emit_code.specs.Naming.{numbers_of};
ghost use Rattle.emit_code.specs.Bodies.{ArmFits, ArmsFit, BlockFits, FormFits, StatementFits};
ghost use Rattle.emit_code.specs.Bodies.{arm_code, arm_size, closed, leaps_at};
ghost use Rattle.emit_code.specs.Bodies.{place_or, spot_of};

use crate::body::Body;
use crate::choices::{emit_leap, land};
use crate::{
    Known, NameNumbers, emit_assert, emit_assign, emit_assign_cell, emit_bind, emit_call,
    emit_expression, emit_fork, emit_join, emit_print, emit_return, here, patch, put,
};
use name_tables::NameTable;
use rev_code::Instr;
use rev_syntax::{Arm, Block, Expr, Form, Item, Name, Rhs, Stmt};
use std::alloc::{AllocError, Global};

/// What names mean in a body.
fn in_body<'t>(numbers: &'t NameNumbers, scope: &'t NameTable<u8>) -> Known<'t>
    ensures numbers { result.numbers.now ≡ numbers.now }
    ensures scope { result.scope.now ≡ scope.now }
{
    Known { numbers, scope }
}

/// Writes the jump from the end of a loop's body to the Charge of the loop, and the target of the
/// jump at its test.
fn close(code: &mut Vec<Instr>, test: usize, head: u32) -> Result<(), AllocError>
    requires { length code.old.items + 1 < 2 ^ 32 }
    ensures { OnOk result (code.new.items ≡ closed test head code.old.items) }
{
    put(code, Instr::Jump(head))?;
    let end = here(code);
    patch(code, test, Instr::JumpIfFalse(end));
    Ok(())
}

/// Whether something stands behind an arm, with so many arms left.
fn is_more(has_last: bool, left: usize) -> bool
    ensures { result ≡ has_last || nat_lt 0 left }
{
    has_last || left > 0
}

/// Writes a `let`, whose name means a local from then on.
fn emit_let(
    alloc: Global,
    numbers: &NameNumbers,
    body: &mut Body,
    name: &Name,
    rhs: &Rhs,
) -> Result<(), AllocError>
    requires { FormFits (numbers_of numbers.now) body.old
        (tree.bind (placed_name name.now) (right_side rhs.now)) }
    ensures code { OnOk result
        (body.new.code.items
        ≡ body.old.code.items ++ statement_form_code (numbers_of numbers.now) body.old.scope
        (tree.bind (placed_name name.now) (right_side rhs.now)) 0 (spot_of body.old)) }
    ensures scope { OnOk result
        (body.new.scope ≡ scope_after_form body.old.scope body.old.local
        (tree.bind (placed_name name.now) (right_side rhs.now))) }
    ensures local { OnOk result
        (body.new.local ≡ body.old.local + statement_form_lets
        (tree.bind (placed_name name.now) (right_side rhs.now))) }
    ensures layout { OnOk result
        (body.new.layout ≡ body.old.layout + statement_form_prints
        (tree.bind (placed_name name.now) (right_side rhs.now))) }
{
    let known = in_body(numbers, &body.scope);
    emit_bind(alloc, &known, &mut body.code, body.local, rhs)?;
    body.scope.add(alloc, &name.text, body.local)?;
    body.local += 1;
    Ok(())
}

/// Writes a `print`, which has the next layout.
fn emit_line(
    alloc: Global,
    numbers: &NameNumbers,
    body: &mut Body,
    items: &[Item],
) -> Result<(), AllocError>
    requires { FormFits (numbers_of numbers.now) body.old
        (tree.print (map print_item items.now)) }
    ensures code { OnOk result
        (body.new.code.items
        ≡ body.old.code.items ++ statement_form_code (numbers_of numbers.now) body.old.scope
        (tree.print (map print_item items.now)) 0 (spot_of body.old)) }
    ensures scope { OnOk result
        (body.new.scope ≡ scope_after_form body.old.scope body.old.local
        (tree.print (map print_item items.now))) }
    ensures local { OnOk result
        (body.new.local ≡ body.old.local + statement_form_lets
        (tree.print (map print_item items.now))) }
    ensures layout { OnOk result
        (body.new.layout ≡ body.old.layout + statement_form_prints
        (tree.print (map print_item items.now))) }
{
    let known = in_body(numbers, &body.scope);
    emit_print(alloc, &known, &mut body.code, body.layout, items)?;
    body.layout += 1;
    Ok(())
}

/// Writes a statement: the Charge of its line, and what it does.
#[cycle(statements)]
fn emit_statement(
    alloc: Global,
    numbers: &NameNumbers,
    body: &mut Body,
    s: &Stmt,
) -> Result<(), AllocError>
    requires { StatementFits (numbers_of numbers.now) body.old (stmt s.now) }
    ensures code { OnOk result
        (body.new.code.items
        ≡ body.old.code.items ++ statement_code (numbers_of numbers.now) body.old.scope (stmt s.now)
        (spot_of body.old)) }
    ensures long { OnOk result
        (length body.new.code.items
        ≡ length body.old.code.items + statement_size (numbers_of numbers.now) (stmt s.now)) }
    ensures scope { OnOk result
        (body.new.scope ≡ scope_after body.old.scope body.old.local (stmt s.now)) }
    ensures local { OnOk result
        (body.new.local ≡ body.old.local + statement_lets (stmt s.now)) }
    ensures layout { OnOk result
        (body.new.layout ≡ body.old.layout + statement_prints (stmt s.now)) }
{
    let head = here(&body.code);
    put(&mut body.code, Instr::Charge(s.line))?;
    emit_form(alloc, numbers, body, head, &s.form)
}

/// Writes what a statement does whose Charge stands at `head`.
#[cycle(statements)]
fn emit_form(
    alloc: Global,
    numbers: &NameNumbers,
    body: &mut Body,
    head: u32,
    form: &Form,
) -> Result<(), AllocError>
    requires { FormFits (numbers_of numbers.now) body.old
        (statement_form form.now) }
    ensures code { OnOk result
        (body.new.code.items
        ≡ body.old.code.items ++ statement_form_code (numbers_of numbers.now) body.old.scope
        (statement_form form.now) head (spot_of body.old)) }
    ensures scope { OnOk result
        (body.new.scope ≡ scope_after_form body.old.scope body.old.local
        (statement_form form.now)) }
    ensures local { OnOk result
        (body.new.local ≡ body.old.local + statement_form_lets
        (statement_form form.now)) }
    ensures layout { OnOk result
        (body.new.layout ≡ body.old.layout + statement_form_prints
        (statement_form form.now)) }
{
    match form {
        Form::Let { name, rhs } => emit_let(alloc, numbers, body, name, rhs),
        Form::Print { items } => emit_line(alloc, numbers, body, items),
        Form::If { arms: all, last } => match last {
            None => emit_if(alloc, numbers, body, all),
            Some(last) => {
                let ends = emit_arms(alloc, numbers, body, all, true)?;
                emit_block(alloc, numbers, body, last)?;
                land(&mut body.code, &ends);
                Ok(())
            }
        },
        Form::While { test, body: inner } => emit_loop(alloc, numbers, body, head, inner, test),
        Form::Assign { name, rhs } => {
            emit_assign(
                alloc,
                &in_body(numbers, &body.scope),
                &mut body.code,
                name,
                rhs,
            )
        }
        Form::AssignCell { name, index, value } => {
            let known = in_body(numbers, &body.scope);
            emit_assign_cell(alloc, &known, &mut body.code, name, index, value)
        }
        Form::Call { name, args } => {
            emit_call(
                alloc,
                &in_body(numbers, &body.scope),
                &mut body.code,
                name,
                args,
            )
        }
        Form::Return { value } => {
            emit_return(alloc, &in_body(numbers, &body.scope), &mut body.code, value)
        }
        Form::Fork { name, args } => {
            emit_fork(
                alloc,
                &in_body(numbers, &body.scope),
                &mut body.code,
                name,
                args,
            )
        }
        Form::Join { handle } => {
            emit_join(
                alloc,
                &in_body(numbers, &body.scope),
                &mut body.code,
                handle,
            )
        }
        Form::Assert { test } => {
            emit_assert(alloc, &in_body(numbers, &body.scope), &mut body.code, test)
        }
    }
}

/// Writes a loop whose Charge stands at `head`.
#[cycle(statements)]
fn emit_loop(
    alloc: Global,
    numbers: &NameNumbers,
    body: &mut Body,
    head: u32,
    inner: &Block,
    test: &Expr,
) -> Result<(), AllocError>
    requires { FormFits (numbers_of numbers.now) body.old
        (tree.repeat (expression test.now) (block inner.now)) }
    ensures code { OnOk result
        (body.new.code.items
        ≡ body.old.code.items ++ statement_form_code (numbers_of numbers.now) body.old.scope
        (tree.repeat (expression test.now) (block inner.now)) head (spot_of body.old)) }
    ensures scope { OnOk result
        (body.new.scope ≡ scope_after_form body.old.scope body.old.local
        (tree.repeat (expression test.now) (block inner.now))) }
    ensures local { OnOk result
        (body.new.local ≡ body.old.local + statement_form_lets
        (tree.repeat (expression test.now) (block inner.now))) }
    ensures layout { OnOk result
        (body.new.layout ≡ body.old.layout + statement_form_prints
        (tree.repeat (expression test.now) (block inner.now))) }
{
    emit_expression(alloc, &in_body(numbers, &body.scope), &mut body.code, test)?;
    let at = body.code.len();
    put(&mut body.code, Instr::JumpIfFalse(0))?;
    emit_block(alloc, numbers, body, inner)?;
    close(&mut body.code, at, head)
}

/// Writes an `if` with no last `else`.
#[cycle(statements)]
fn emit_if(
    alloc: Global,
    numbers: &NameNumbers,
    body: &mut Body,
    all: &[Arm],
) -> Result<(), AllocError>
    requires { FormFits (numbers_of numbers.now) body.old
        (tree.choose (arms all.now)) }
    ensures code { OnOk result
        (body.new.code.items
        ≡ body.old.code.items ++ statement_form_code (numbers_of numbers.now) body.old.scope
        (tree.choose (arms all.now)) 0 (spot_of body.old)) }
    ensures scope { OnOk result
        (body.new.scope ≡ scope_after_form body.old.scope body.old.local
        (tree.choose (arms all.now))) }
    ensures local { OnOk result
        (body.new.local ≡ body.old.local + statement_form_lets
        (tree.choose (arms all.now))) }
    ensures layout { OnOk result
        (body.new.layout ≡ body.old.layout + statement_form_prints
        (tree.choose (arms all.now))) }
{
    let ends = emit_arms(alloc, numbers, body, all, false)?;
    land(&mut body.code, &ends);
    Ok(())
}

/// Writes the arms of an `if`, and gives the places of the jumps to its end, which have no target
/// yet.
#[cycle(statements)]
fn emit_arms(
    alloc: Global,
    numbers: &NameNumbers,
    body: &mut Body,
    all: &[Arm],
    has_last: bool,
) -> Result<Vec<usize>, AllocError>
    requires { ArmsFit (numbers_of numbers.now) body.old has_last (arms all.now) }
    ensures code { OnOk result
        (body.new.code.items
        ≡ body.old.code.items ++ arms_code (numbers_of numbers.now) body.old.scope has_last
        (arms all.now) 0 (spot_of body.old)) }
    ensures long { OnOk result
        (length body.new.code.items
        ≡ length body.old.code.items + arms_size (numbers_of numbers.now) has_last (arms all.now)) }
    ensures ends { IfOk result
        (λ ends. ends.items
        ≡ leaps_at (numbers_of numbers.now) has_last (arms all.now) (length body.old.code.items)) }
    ensures scope { OnOk result (body.new.scope ≡ body.old.scope) }
    ensures local { OnOk result
        (body.new.local ≡ body.old.local + arms_lets (arms all.now)) }
    ensures layout { OnOk result
        (body.new.layout ≡ body.old.layout + arms_prints (arms all.now)) }
{
    let mut ends = Vec::new(alloc);
    let mut left = all.len();
    for a in all {
        left -= 1;
        let more = is_more(has_last, left);
        emit_arm(alloc, numbers, body, &mut ends, more, a)?;
    }
    Ok(ends)
}

/// Writes an arm of an `if`, and the jump to the end where something is behind it.
#[cycle(statements)]
fn emit_arm(
    alloc: Global,
    numbers: &NameNumbers,
    body: &mut Body,
    ends: &mut Vec<usize>,
    more: bool,
    a: &Arm,
) -> Result<(), AllocError>
    requires { ArmFits (numbers_of numbers.now) body.old more (pair a.now).0 (pair a.now).1 }
    ensures code { OnOk result
        (body.new.code.items
        ≡ body.old.code.items ++ arm_code (numbers_of numbers.now) body.old.scope more
        (pair a.now).0 (pair a.now).1 (spot_of body.old)) }
    ensures long { OnOk result
        (length body.new.code.items
        ≡ length body.old.code.items + arm_size (numbers_of numbers.now) more
        (pair a.now).0 (pair a.now).1) }
    ensures ends { OnOk result
        (ends.new.items
        ≡ ends.old.items ++ place_or more (length body.old.code.items
        + (expression_size (pair a.now).0 + 1)
        + statements_size (numbers_of numbers.now) (pair a.now).1)) }
    ensures scope { OnOk result (body.new.scope ≡ body.old.scope) }
    ensures local { OnOk result
        (body.new.local ≡ body.old.local + statements_lets (pair a.now).1) }
    ensures layout { OnOk result
        (body.new.layout ≡ body.old.layout + statements_prints (pair a.now).1) }
{
    emit_expression(
        alloc,
        &in_body(numbers, &body.scope),
        &mut body.code,
        &a.test,
    )?;
    let test = body.code.len();
    put(&mut body.code, Instr::JumpIfFalse(0))?;
    emit_block(alloc, numbers, body, &a.body)?;
    emit_leap(&mut body.code, ends, more)?;
    let next = here(&body.code);
    patch(&mut body.code, test, Instr::JumpIfFalse(next));
    Ok(())
}

/// Writes a block. The locals that it binds are not in scope behind it.
#[cycle(statements)]
pub fn emit_block(
    alloc: Global,
    numbers: &NameNumbers,
    body: &mut Body,
    b: &Block,
) -> Result<(), AllocError>
    requires { BlockFits (numbers_of numbers.now) body.old (block b.now) }
    ensures code { OnOk result
        (body.new.code.items
        ≡ body.old.code.items ++ statements_code (numbers_of numbers.now) body.old.scope
        (block b.now) (spot_of body.old)) }
    ensures long { OnOk result
        (length body.new.code.items
        ≡ length body.old.code.items + statements_size (numbers_of numbers.now) (block b.now)) }
    ensures scope { OnOk result (body.new.scope ≡ body.old.scope) }
    ensures local { OnOk result
        (body.new.local ≡ body.old.local + statements_lets (block b.now)) }
    ensures layout { OnOk result
        (body.new.layout ≡ body.old.layout + statements_prints (block b.now)) }
{
    let depth = body.scope.len();
    for s in &b.stmts {
        emit_statement(alloc, numbers, body, s)?;
    }
    body.scope.truncate(depth);
    Ok(())
}
