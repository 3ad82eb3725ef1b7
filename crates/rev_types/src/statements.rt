//! The rules on statements.

ghost use Rattle.std.specs.Prelude.{◌≡◌, ◌-◌, [], map, option_map, IfOk, OnOk};
ghost use Rattle.rev_syntax.specs.View.{statement_form, arm as pair, arms, block, right_side};
ghost use Rattle.rev_syntax.specs.View.{print_item, stmt, expression, placed_name};
ghost use Rattle.rev_report.specs.declared.limit.Limit.TheVariants as limits;
ghost use Rattle.rev_report.specs.Limits.{first_past};
ghost use Rattle.rev_kinds.specs.Walk.{both, names_of};
ghost use Rattle.typed_programs.specs.Statements as statements;
ghost use Rattle.typed_programs.specs.Scopes as scopes;
ghost use Rattle.rev_types.specs.Walk as rule;

use name_tables::NameTable;
use rev_kinds::{
    Checker, Locals, alike, array_use, first, name_kind, not_rev, right_side_place, scalar_use,
};
use rev_num::ValueKind;
use rev_report::Limit;
use rev_syntax::{Arm, Block, Expr, Form, Item, Name, Rhs, Stmt};
use std::alloc::{AllocError, Global};
use typed_programs::{Holder, TypeFault};

/// The locals of a body: those in scope, and how many more there may be, up to and with the first
/// past the limit.
#[derive(Drop)]
pub struct Body {
    pub locals: Locals,
    pub left: usize,
}

impl Body {
    /// A body before its first local.
    pub fn new(alloc: Global) -> Body
        ensures locals { result.locals ≡ [] }
        ensures left { result.left ≡ first_past limits.Locals }
    {
        Body {
            locals: NameTable::new(alloc),
            left: Limit::Locals.first_past(),
        }
    }
}

/// A name that a procedure declares, which no shared variable and no local in scope may have.
pub fn new_local(
    name: &Name,
    local: Option<Option<ValueKind>>,
    shared: Option<Holder>,
) -> Option<TypeFault>
    ensures { result ≡ rule.new_local (placed_name name.now) local shared }
{
    let at = name.at;
    if local.is_some() {
        Some(TypeFault::Redeclared { at })
    } else if shared.is_some() {
        Some(TypeFault::Redeclared { at })
    } else {
        None
    }
}

/// The local of this name, where this many are left.
pub fn one_more_local(name: &Name, left: usize) -> Option<TypeFault>
    ensures { result ≡ rule.one_more_local (placed_name name.now) left }
{
    if left == 1 {
        Some(TypeFault::exceeded(Limit::Locals, name.at))
    } else {
        None
    }
}

/// An item of a print, where this many are left.
fn one_more_item(at: u32, left: usize) -> Option<TypeFault>
    ensures { result ≡ rule.one_more_item at left }
{
    if left == 1 {
        Some(TypeFault::exceeded(Limit::Items, at))
    } else {
        None
    }
}

fn item(checker: &Checker, locals: &Locals, left: usize, item: &Item) -> Option<TypeFault>
    ensures { result
        ≡ statements.item_by None Some both (names_of checker.now) locals.now left
        (print_item item.now) }
{
    match item {
        Item::Text { at, .. } => one_more_item(*at, left),
        Item::Value(e) => {
            let seen = checker.expression(locals, e);
            first(
                first(seen.fault, not_rev(e.at, seen.kind)),
                one_more_item(e.at, left),
            )
        }
    }
}

/// The items of a print.
fn items(checker: &Checker, locals: &Locals, all: &[Item]) -> Option<TypeFault>
    ensures { result
        ≡ rule.items_by (names_of checker.now) locals.now (first_past limits.Items) None
        (map print_item all.now) }
{
    let mut left = Limit::Items.first_past();
    let mut found = None;
    for it in all {
        found = first(found, item(checker, locals, left, it));
        left = left.saturating_sub(1);
    }
    found
}

/// A `return` at this place, in a procedure with this result, or in `main` or one without.
fn returned(
    checker: &Checker,
    locals: &Locals,
    result_kind: Option<ValueKind>,
    at: u32,
    value: &Option<Expr>,
) -> Option<TypeFault>
    ensures { result
        ≡ rule.return_by (names_of checker.now) locals.now result_kind at
        (option_map expression value.now) }
{
    match (result_kind, value) {
        (None, None) => None,
        (None, Some(e)) => first(
            checker.expression(locals, e).fault,
            Some(TypeFault::WrongType { at: e.at }),
        ),
        (Some(_), None) => Some(TypeFault::WrongType { at }),
        (Some(wanted), Some(e)) => checker.part(locals, e, wanted),
    }
}

/// The right side of an assignment to what has this kind.
fn assigned(
    checker: &Checker,
    locals: &Locals,
    wanted: Option<ValueKind>,
    rhs: &Rhs,
) -> Option<TypeFault>
    ensures { result ≡ rule.assigned (names_of checker.now) locals.now wanted (right_side rhs.now) }
{
    let seen = checker.right_side(locals, rhs);
    first(seen.fault, alike(right_side_place(rhs), wanted, seen.kind))
}

/// An assignment to a scalar.
fn assign(checker: &Checker, locals: &Locals, name: &Name, rhs: &Rhs) -> Option<TypeFault>
    ensures { result
        ≡ statements.assign_by None Some both (names_of checker.now) locals.now
        (placed_name name.now) (right_side rhs.now) }
{
    let local = locals.find(&name.text);
    let shared = checker.holder(name);
    first(
        scalar_use(name, local, shared),
        assigned(checker, locals, name_kind(local, shared), rhs),
    )
}

/// An assignment to a cell.
fn assign_cell(
    checker: &Checker,
    locals: &Locals,
    name: &Name,
    index: &Expr,
    value: &Expr,
) -> Option<TypeFault>
    ensures { result
        ≡ statements.cell_by None Some both (names_of checker.now) locals.now (placed_name name.now)
        (expression index.now) (expression value.now) }
{
    let local = locals.find(&name.text);
    let shared = checker.holder(name);
    let target = array_use(name, local, shared);
    let index = checker.part(locals, index, ValueKind::Int);
    let seen = checker.expression(locals, value);
    let value = first(
        seen.fault,
        alike(value.at, name_kind(local, shared), seen.kind),
    );
    first(target, first(index, value))
}

/// A `let`, which binds its name from then on.
fn bind(
    alloc: Global,
    checker: &Checker,
    body: &mut Body,
    name: &Name,
    rhs: &Rhs,
) -> Result<Option<TypeFault>, AllocError>
    ensures fault { IfOk result
        (λ f. f ≡ statements.bind_by None Some both
        (names_of checker.now) body.old.locals body.old.left (placed_name name.now)
        (right_side rhs.now)) }
    ensures locals { OnOk result
        (body.new.locals
        ≡ scopes.bound (names_of checker.now) body.old.locals (placed_name name.now)
        (right_side rhs.now)) }
    ensures left { OnOk result (body.new.left ≡ body.old.left - 1) }
{
    let seen = checker.right_side(&body.locals, rhs);
    let taken = new_local(name, body.locals.find(&name.text), checker.holder(name));
    let limit = one_more_local(name, body.left);
    body.locals.add(alloc, &name.text, seen.kind)?;
    body.left = body.left.saturating_sub(1);
    Ok(first(seen.fault, first(taken, limit)))
}

/// A statement of a body, in a procedure with this result.
#[cycle(statements)]
fn stmt(
    alloc: Global,
    checker: &Checker,
    result_kind: Option<ValueKind>,
    body: &mut Body,
    s: &Stmt,
) -> Result<Option<TypeFault>, AllocError>
    ensures fault { IfOk result
        (λ f. f ≡ rule.broken_in_statement
        (names_of checker.now) result_kind body.old.locals body.old.left (stmt s.now)) }
    ensures locals { OnOk result
        (body.new.locals
        ≡ scopes.locals_after (names_of checker.now) body.old.locals (stmt s.now)) }
    ensures left { OnOk result (body.new.left ≡ statements.left_after body.old.left (stmt s.now)) }
{
    form(alloc, checker, result_kind, body, s.at, &s.form)
}

#[cycle(statements)]
fn form(
    alloc: Global,
    checker: &Checker,
    result_kind: Option<ValueKind>,
    body: &mut Body,
    at: u32,
    form: &Form,
) -> Result<Option<TypeFault>, AllocError>
    ensures fault { IfOk result
        (λ f. f ≡ rule.broken_in_statement_form
        (names_of checker.now) result_kind body.old.locals body.old.left at
        (statement_form form.now)) }
    ensures locals { OnOk result
        (body.new.locals
        ≡ scopes.statement_form_locals (names_of checker.now) body.old.locals
        (statement_form form.now)) }
    ensures left { OnOk result
        (body.new.left ≡ statements.left_statement_form body.old.left (statement_form form.now)) }
{
    match form {
        Form::Let { name, rhs } => bind(alloc, checker, body, name, rhs),
        Form::Assign { name, rhs } => Ok(assign(checker, &body.locals, name, rhs)),
        Form::AssignCell { name, index, value } => {
            Ok(assign_cell(checker, &body.locals, name, index, value))
        }
        Form::If { arms: all, last } => {
            let tested = arms(alloc, checker, result_kind, body, all)?;
            match last {
                None => Ok(tested),
                Some(last) => Ok(first(tested, block(alloc, checker, result_kind, body, last)?)),
            }
        }
        Form::While { test, body: inner } => {
            let test = checker.part(&body.locals, test, ValueKind::Bool);
            Ok(first(test, block(alloc, checker, result_kind, body, inner)?))
        }
        Form::Call { name, args } => Ok(checker.call(&body.locals, name, args)),
        Form::Return { value } => Ok(returned(checker, &body.locals, result_kind, at, value)),
        Form::Fork { name, args } => Ok(checker.call(&body.locals, name, args)),
        Form::Join { handle } => Ok(checker.part(&body.locals, handle, ValueKind::Rev)),
        Form::Print { items: all } => Ok(items(checker, &body.locals, all)),
        Form::Assert { test } => Ok(checker.part(&body.locals, test, ValueKind::Bool)),
    }
}

/// A block. The locals that it binds are not in scope behind it.
#[cycle(statements)]
pub fn block(
    alloc: Global,
    checker: &Checker,
    result_kind: Option<ValueKind>,
    body: &mut Body,
    b: &Block,
) -> Result<Option<TypeFault>, AllocError>
    ensures fault { IfOk result
        (λ f. f ≡ rule.broken_in_statements
        (names_of checker.now) result_kind body.old.locals body.old.left None (block b.now)) }
    ensures locals { OnOk result (body.new.locals ≡ body.old.locals) }
    ensures left { OnOk result
        (body.new.left ≡ statements.left_statements body.old.left (block b.now)) }
{
    let depth = body.locals.len();
    let mut found = None;
    for s in &b.stmts {
        found = first(found, stmt(alloc, checker, result_kind, body, s)?);
    }
    body.locals.truncate(depth);
    Ok(found)
}

/// The tests and blocks of an `if`.
#[cycle(statements)]
fn arms(
    alloc: Global,
    checker: &Checker,
    result_kind: Option<ValueKind>,
    body: &mut Body,
    all: &[Arm],
) -> Result<Option<TypeFault>, AllocError>
    ensures fault { IfOk result
        (λ f. f ≡ rule.broken_in_arms
        (names_of checker.now) result_kind body.old.locals body.old.left None (arms all.now)) }
    ensures locals { OnOk result (body.new.locals ≡ body.old.locals) }
    ensures left { OnOk result (body.new.left ≡ statements.left_arms body.old.left (arms all.now)) }
{
    let mut found = None;
    for a in all {
        found = first(found, arm(alloc, checker, result_kind, body, a)?);
    }
    Ok(found)
}

#[cycle(statements)]
fn arm(
    alloc: Global,
    checker: &Checker,
    result_kind: Option<ValueKind>,
    body: &mut Body,
    a: &Arm,
) -> Result<Option<TypeFault>, AllocError>
    ensures fault { IfOk result
        (λ f. f ≡ statements.arm_by None Some both
        (names_of checker.now) result_kind body.old.locals body.old.left (pair a.now).0
        (pair a.now).1) }
    ensures locals { OnOk result (body.new.locals ≡ body.old.locals) }
    ensures left { OnOk result
        (body.new.left ≡ statements.left_statements body.old.left (pair a.now).1) }
{
    let test = checker.part(&body.locals, &a.test, ValueKind::Bool);
    Ok(first(test, block(alloc, checker, result_kind, body, &a.body)?))
}
