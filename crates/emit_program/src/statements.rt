//! The kinds, texts and layouts of statements.

ghost use Rattle.std.specs.Prelude.{◌≡◌, ◌<◌, ◌+◌, ◌^◌, ◌++◌, OnOk, length, map};
ghost use Rattle.rev_syntax.specs.View.{arms, block, placed_name, print_item};
ghost use Rattle.rev_syntax.specs.View.{right_side, statement_form, stmt};
ghost use Rattle.rev_kinds.specs.Walk.{names_of};
ghost use Rattle.typed_programs.specs.Scopes.{bound, locals_after, statement_form_locals};
ghost use Rattle.code_generation.specs.Prints.{arms_kinds, arms_layouts, arms_texts};
ghost use Rattle.code_generation.specs.Prints.{statement_form_kinds, statement_form_layouts};
ghost use Rattle.code_generation.specs.Prints.{statement_form_texts, statement_kinds};
ghost use Rattle.code_generation.specs.Prints.{statement_layouts, statement_texts};
ghost use Rattle.code_generation.specs.Prints.{statements_kinds, statements_layouts};
ghost use Rattle.code_generation.specs.Prints.{statements_texts};
ghost use Rattle.rev_syntax.specs.Trees as tree;

use crate::listed::Listed;
use crate::prints::{kind_of_local, list_items};
use rev_kinds::Checker;
use rev_syntax::{Arm, Block, Form, Item, Name, Rhs, Stmt};
use std::alloc::{AllocError, Global};

/// Lists the local of a `let`.
fn list_let(
    alloc: Global,
    checker: &Checker,
    listed: &mut Listed,
    name: &Name,
    rhs: &Rhs,
) -> Result<(), AllocError>
    requires { length listed.old.texts.items
        + length (statement_form_texts
        (tree.bind (placed_name name.now) (right_side rhs.now))) < 2 ^ 32 }
    ensures locals { OnOk result (listed.new.locals
        ≡ bound (names_of checker.now) listed.old.locals (placed_name name.now)
        (right_side rhs.now)) }
    ensures kinds { OnOk result
        (listed.new.kinds.items
        ≡ listed.old.kinds.items ++ statement_form_kinds (names_of checker.now) listed.old.locals
        (tree.bind (placed_name name.now) (right_side rhs.now))) }
    ensures texts { OnOk result
        (listed.new.texts.items ≡ listed.old.texts.items
        ++ statement_form_texts (tree.bind (placed_name name.now) (right_side rhs.now))) }
    ensures layouts { OnOk result
        (listed.new.layouts.items
        ≡ listed.old.layouts.items
        ++ statement_form_layouts (names_of checker.now) listed.old.locals
        (length listed.old.texts.items) (tree.bind (placed_name name.now) (right_side rhs.now))) }
{
    let kind = checker.right_side(&listed.locals, rhs).kind;
    listed.kinds.push(kind_of_local(kind))?;
    listed.locals.add(alloc, &name.text, kind)?;
    Ok(())
}

/// Lists the texts and the layout of a print.
fn list_print(
    alloc: Global,
    checker: &Checker,
    listed: &mut Listed,
    items: &[Item],
) -> Result<(), AllocError>
    requires { length listed.old.texts.items
        + length (statement_form_texts (tree.print (map print_item items.now))) < 2 ^ 32 }
    ensures locals { OnOk result (listed.new.locals ≡ listed.old.locals) }
    ensures kinds { OnOk result
        (listed.new.kinds.items
        ≡ listed.old.kinds.items ++ statement_form_kinds (names_of checker.now) listed.old.locals
        (tree.print (map print_item items.now))) }
    ensures texts { OnOk result
        (listed.new.texts.items ≡ listed.old.texts.items
        ++ statement_form_texts (tree.print (map print_item items.now))) }
    ensures layouts { OnOk result
        (listed.new.layouts.items
        ≡ listed.old.layouts.items
        ++ statement_form_layouts (names_of checker.now) listed.old.locals
        (length listed.old.texts.items) (tree.print (map print_item items.now))) }
{
    let layout = list_items(alloc, checker, &listed.locals, &mut listed.texts, items)?;
    listed.layouts.push(layout)?;
    Ok(())
}

/// Lists what a statement has.
#[cycle(statements)]
#[tactic(auto, using(typed_programs::proofs::Appends::appends))]
fn list_statement(
    alloc: Global,
    checker: &Checker,
    listed: &mut Listed,
    s: &Stmt,
) -> Result<(), AllocError>
    requires { length listed.old.texts.items + length (statement_texts (stmt s.now)) < 2 ^ 32 }
    ensures locals { OnOk result (listed.new.locals
        ≡ locals_after (names_of checker.now) listed.old.locals (stmt s.now)) }
    ensures kinds { OnOk result
        (listed.new.kinds.items
        ≡ listed.old.kinds.items ++ statement_kinds (names_of checker.now) listed.old.locals
        (stmt s.now)) }
    ensures texts { OnOk result
        (listed.new.texts.items ≡ listed.old.texts.items ++ statement_texts (stmt s.now)) }
    ensures layouts { OnOk result
        (listed.new.layouts.items
        ≡ listed.old.layouts.items ++ statement_layouts (names_of checker.now) listed.old.locals
        (length listed.old.texts.items) (stmt s.now)) }
{
    list_form(alloc, checker, listed, &s.form)
}

#[cycle(statements)]
#[tactic(auto, using(typed_programs::proofs::Appends::appends))]
fn list_form(
    alloc: Global,
    checker: &Checker,
    listed: &mut Listed,
    form: &Form,
) -> Result<(), AllocError>
    requires { length listed.old.texts.items
        + length (statement_form_texts (statement_form form.now)) < 2 ^ 32 }
    ensures locals { OnOk result (listed.new.locals
        ≡ statement_form_locals (names_of checker.now) listed.old.locals
        (statement_form form.now)) }
    ensures kinds { OnOk result
        (listed.new.kinds.items
        ≡ listed.old.kinds.items ++ statement_form_kinds (names_of checker.now) listed.old.locals
        (statement_form form.now)) }
    ensures texts { OnOk result
        (listed.new.texts.items ≡ listed.old.texts.items
        ++ statement_form_texts (statement_form form.now)) }
    ensures layouts { OnOk result
        (listed.new.layouts.items
        ≡ listed.old.layouts.items
        ++ statement_form_layouts (names_of checker.now) listed.old.locals
        (length listed.old.texts.items) (statement_form form.now)) }
{
    match form {
        Form::Let { name, rhs } => list_let(alloc, checker, listed, name, rhs),
        Form::Print { items } => list_print(alloc, checker, listed, items),
        Form::If { arms: all, last } => {
            list_arms(alloc, checker, listed, all)?;
            match last {
                None => Ok(()),
                Some(last) => list_block(alloc, checker, listed, last),
            }
        }
        Form::While { body, .. } => list_block(alloc, checker, listed, body),
        Form::Assign { .. } => Ok(()),
        Form::AssignCell { .. } => Ok(()),
        Form::Call { .. } => Ok(()),
        Form::Return { .. } => Ok(()),
        Form::Fork { .. } => Ok(()),
        Form::Join { .. } => Ok(()),
        Form::Assert { .. } => Ok(()),
    }
}

/// Lists what the blocks of arms have.
#[cycle(statements)]
#[tactic(auto, using(typed_programs::proofs::Appends::appends))]
fn list_arms(
    alloc: Global,
    checker: &Checker,
    listed: &mut Listed,
    all: &[Arm],
) -> Result<(), AllocError>
    requires { length listed.old.texts.items + length (arms_texts (arms all.now)) < 2 ^ 32 }
    ensures locals { OnOk result (listed.new.locals ≡ listed.old.locals) }
    ensures kinds { OnOk result
        (listed.new.kinds.items
        ≡ listed.old.kinds.items ++ arms_kinds (names_of checker.now) listed.old.locals
        (arms all.now)) }
    ensures texts { OnOk result
        (listed.new.texts.items ≡ listed.old.texts.items ++ arms_texts (arms all.now)) }
    ensures layouts { OnOk result
        (listed.new.layouts.items
        ≡ listed.old.layouts.items ++ arms_layouts (names_of checker.now) listed.old.locals
        (length listed.old.texts.items) (arms all.now)) }
{
    for a in all {
        list_block(alloc, checker, listed, &a.body)?;
    }
    Ok(())
}

/// Lists what a block has. The locals that it binds are not in scope behind it.
#[cycle(statements)]
#[tactic(auto, using(typed_programs::proofs::Appends::appends))]
pub fn list_block(
    alloc: Global,
    checker: &Checker,
    listed: &mut Listed,
    b: &Block,
) -> Result<(), AllocError>
    requires { length listed.old.texts.items + length (statements_texts (block b.now)) < 2 ^ 32 }
    ensures locals { OnOk result (listed.new.locals ≡ listed.old.locals) }
    ensures kinds { OnOk result
        (listed.new.kinds.items
        ≡ listed.old.kinds.items ++ statements_kinds (names_of checker.now) listed.old.locals
        (block b.now)) }
    ensures texts { OnOk result
        (listed.new.texts.items ≡ listed.old.texts.items ++ statements_texts (block b.now)) }
    ensures layouts { OnOk result
        (listed.new.layouts.items
        ≡ listed.old.layouts.items ++ statements_layouts (names_of checker.now) listed.old.locals
        (length listed.old.texts.items) (block b.now)) }
{
    let depth = listed.locals.len();
    for s in &b.stmts {
        list_statement(alloc, checker, listed, s)?;
    }
    listed.locals.truncate(depth);
    Ok(())
}
