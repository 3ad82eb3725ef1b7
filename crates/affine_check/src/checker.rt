//! The affine rule on statements, declarations and programs.

ghost use Rattle.std.specs.Prelude.{◌≡◌, ◌&&◌, ℕ, None, [], true, map, IfErr, IfOk};
ghost use Rattle.std.specs.Prelude.{OnOk};
ghost use Rattle.rev_syntax.specs.View.{arms, block, declaration};
ghost use Rattle.rev_syntax.specs.View.{parameter, placed_name, program as whole, right_side};
ghost use Rattle.rev_syntax.specs.View.{statement_form, stmt, stmts};
ghost use Rattle.name_tables.specs.Table.{find};
ghost use Rattle.rev_kinds.specs.Walk.{names_of};
ghost use Rattle.typed_programs.specs.Scopes as scopes;
ghost use Rattle.revision_calculus.specs.Program.{Setting};
ghost use Rattle.affine_check.specs.Affine.{IsAffine};
ghost use Rattle.affine_check.specs.Laws.{NeverTwice};
ghost use Rattle.affine_check.specs.Live.{arms_pass, passes, statement_form_passes, statement_passes};
ghost use Rattle.affine_check.specs.Faults.{Refuses};
ghost use Rattle.affine_check.specs.Walk as rule;

use crate::copies::{copied, copied_args, copied_items, copied_right, copied_value, is_handle};
use crate::fault::{AffineFault, first};
use crate::trail::{Trail, statements};
use name_tables::NameTable;
use rev_kinds::{Checker, Locals};
use rev_num::{ValueKind, same_kind};
use rev_syntax::{Arm, Block, Decl, Form, Name, Param, Program, Rhs, Stmt};
use rev_types::name_tables;
use std::alloc::{AllocError, Global};
use typed_programs::Typed;

/// Where the walk is: the locals in scope, and whether some path comes here.
#[derive(Drop)]
struct Scope {
    locals: Locals,
    reached: bool,
}

/// The first misuse of this name in the rest of its block, if the name is that of a handle.
fn misused(scope: &Scope, name: &Name, rest: &[Stmt]) -> Option<AffineFault>
    ensures { result
        ≡ rule.misused scope.now.reached (find name.now.text.items scope.now.locals)
        name.now.text.items (stmts rest.now) }
{
    if is_handle(scope.locals.find(&name.text)) {
        statements(&name.text, false, Trail::start(scope.reached), rest).found
    } else {
        None
    }
}

/// A shared variable of this name that holds handles.
fn stored(checker: &Checker, name: &Name) -> Option<AffineFault>
    ensures { result ≡ rule.stored (names_of checker.now) (placed_name name.now) }
{
    match checker.holder(name) {
        None => None,
        Some(holder) => {
            if same_kind(holder.kind, ValueKind::Rev) {
                Some(AffineFault::Stored { at: name.at })
            } else {
                None
            }
        }
    }
}

/// A `let`, which binds its name from then on, with the rest of its block.
fn bind(
    alloc: Global,
    checker: &Checker,
    scope: &mut Scope,
    name: &Name,
    rhs: &Rhs,
    rest: &[Stmt],
) -> Result<Option<AffineFault>, AllocError>
    ensures found { IfOk result
        (λ f. f ≡ rule.broken_bind (names_of checker.now) scope.old.locals scope.old.reached
        (stmts rest.now) (placed_name name.now) (right_side rhs.now)) }
    ensures locals { OnOk result
        (scope.new.locals
        ≡ scopes.bound (names_of checker.now) scope.old.locals (placed_name name.now)
        (right_side rhs.now)) }
    ensures reached { scope.new.reached ≡ scope.old.reached }
{
    let copied = copied_right(&scope.locals, rhs);
    let kind = checker.right_side(&scope.locals, rhs).kind;
    scope.locals.add(alloc, &name.text, kind)?;
    Ok(first(copied, misused(scope, name, rest)))
}

/// A statement, with the rest of its block.
#[cycle(statements)]
fn broken(
    alloc: Global,
    checker: &Checker,
    scope: &mut Scope,
    s: &Stmt,
    rest: &[Stmt],
) -> Result<Option<AffineFault>, AllocError>
    ensures found { IfOk result
        (λ f. f ≡ rule.broken_statement (names_of checker.now) scope.old.locals
        scope.old.reached (stmts rest.now) (stmt s.now)) }
    ensures locals { OnOk result
        (scope.new.locals
        ≡ scopes.locals_after (names_of checker.now) scope.old.locals (stmt s.now)) }
    ensures reached { OnOk result
        (scope.new.reached ≡ (scope.old.reached && statement_passes (stmt s.now))) }
{
    broken_form(alloc, checker, scope, &s.form, rest)
}

#[cycle(statements)]
fn broken_form(
    alloc: Global,
    checker: &Checker,
    scope: &mut Scope,
    form: &Form,
    rest: &[Stmt],
) -> Result<Option<AffineFault>, AllocError>
    ensures found { IfOk result
        (λ f. f ≡ rule.broken_form (names_of checker.now) scope.old.locals scope.old.reached
        (stmts rest.now) (statement_form form.now)) }
    ensures locals { OnOk result
        (scope.new.locals
        ≡ scopes.statement_form_locals (names_of checker.now) scope.old.locals
        (statement_form form.now)) }
    ensures reached { OnOk result
        (scope.new.reached
        ≡ (scope.old.reached && statement_form_passes (statement_form form.now))) }
{
    let reached = scope.reached;
    match form {
        Form::Let { name, rhs } => bind(alloc, checker, scope, name, rhs, rest),
        Form::Assign { name, rhs } => {
            Ok(first(stored(checker, name), copied_right(&scope.locals, rhs)))
        }
        Form::AssignCell { name, index, value } => {
            let index = copied(&scope.locals, false, index);
            let value = copied(&scope.locals, false, value);
            Ok(first(stored(checker, name), first(index, value)))
        }
        Form::If { arms: all, last } => {
            let found = broken_arms(alloc, checker, scope, all)?;
            let passes = scope.reached;
            scope.reached = reached;
            match last {
                None => Ok(found),
                Some(last) => {
                    let behind = broken_block(alloc, checker, scope, last)?;
                    scope.reached = passes || scope.reached;
                    Ok(first(found, behind))
                }
            }
        }
        Form::While { test, body } => {
            let test = copied(&scope.locals, false, test);
            let found = broken_block(alloc, checker, scope, body)?;
            scope.reached = reached;
            Ok(first(test, found))
        }
        Form::Call { args, .. } => Ok(copied_args(&scope.locals, false, args)),
        Form::Return { value } => {
            scope.reached = false;
            Ok(copied_value(&scope.locals, value))
        }
        Form::Fork { args, .. } => Ok(copied_args(&scope.locals, false, args)),
        Form::Join { handle } => Ok(copied(&scope.locals, false, handle)),
        Form::Print { items } => Ok(copied_items(&scope.locals, items)),
        Form::Assert { test } => Ok(copied(&scope.locals, false, test)),
    }
}

/// A block. The locals that it binds are not in scope behind it.
#[cycle(statements)]
fn broken_block(
    alloc: Global,
    checker: &Checker,
    scope: &mut Scope,
    b: &Block,
) -> Result<Option<AffineFault>, AllocError>
    ensures found { IfOk result
        (λ f. f ≡ rule.broken_in (names_of checker.now) scope.old.locals scope.old.reached None
        (block b.now)) }
    ensures locals { OnOk result (scope.new.locals ≡ scope.old.locals) }
    ensures reached { OnOk result
        (scope.new.reached ≡ (scope.old.reached && passes (block b.now))) }
{
    let depth = scope.locals.len();
    let mut found = None;
    for (i, s) in b.stmts.iter().enumerate() {
        found = first(found, broken(alloc, checker, scope, s, &b.stmts[i + 1..])?);
    }
    scope.locals.truncate(depth);
    Ok(found)
}

/// The tests and blocks of an `if`.
#[cycle(statements)]
fn broken_arms(
    alloc: Global,
    checker: &Checker,
    scope: &mut Scope,
    all: &[Arm],
) -> Result<Option<AffineFault>, AllocError>
    ensures found { IfOk result
        (λ f. f ≡ rule.broken_arms (names_of checker.now) scope.old.locals scope.old.reached None
        (arms all.now)) }
    ensures locals { OnOk result (scope.new.locals ≡ scope.old.locals) }
    ensures reached { OnOk result
        (scope.new.reached ≡ (scope.old.reached && arms_pass (arms all.now))) }
{
    let reached = scope.reached;
    let mut passes = false;
    let mut found = None;
    for a in all {
        let test = copied(&scope.locals, false, &a.test);
        scope.reached = reached;
        let body = broken_block(alloc, checker, scope, &a.body)?;
        passes = passes || scope.reached;
        found = first(found, first(test, body));
    }
    scope.reached = passes;
    Ok(found)
}

/// The locals of a procedure with these parameters.
fn with_params(alloc: Global, params: &[Param]) -> Result<Locals, AllocError>
    ensures { IfOk result (λ l. l ≡ scopes.with_params [] (map parameter params.now)) }
{
    let mut locals = NameTable::new(alloc);
    for param in params {
        locals.add(alloc, &param.name.text, Some(param.kind))?;
    }
    Ok(locals)
}

/// The first misuse of a parameter that is a handle.
fn misused_params(scope: &Scope, params: &[Param], body: &Block) -> Option<AffineFault>
    requires { scope.now.reached ≡ true }
    ensures { result
        ≡ rule.misused_params scope.now.locals (block body.now) None (map parameter params.now) }
{
    let mut found = None;
    for param in params {
        found = first(found, misused(scope, &param.name, &body.stmts));
    }
    found
}

/// The body of a procedure with these parameters, or of `main`.
fn broken_body(
    alloc: Global,
    checker: &Checker,
    params: &[Param],
    body: &Block,
) -> Result<Option<AffineFault>, AllocError>
    ensures { IfOk result
        (λ f. f ≡ rule.broken_body (names_of checker.now) (map parameter params.now)
        (block body.now)) }
{
    let mut scope = Scope {
        locals: with_params(alloc, params)?,
        reached: true,
    };
    let misused = misused_params(&scope, params, body);
    Ok(first(misused, broken_block(alloc, checker, &mut scope, body)?))
}

fn broken_decl(
    alloc: Global,
    checker: &Checker,
    d: &Decl,
) -> Result<Option<AffineFault>, AllocError>
    ensures { IfOk result
        (λ f. f ≡ rule.broken_declaration (names_of checker.now) (declaration d.now)) }
{
    match d {
        Decl::Proc { params, body, .. } => broken_body(alloc, checker, params, body),
        Decl::Fun { .. } => Ok(None),
        Decl::Merge { .. } => Ok(None),
        Decl::Shared { .. } => Ok(None),
    }
}

fn broken_decls(
    alloc: Global,
    checker: &Checker,
    decls: &[Decl],
) -> Result<Option<AffineFault>, AllocError>
    ensures { IfOk result
        (λ f. f ≡ rule.broken_declarations (names_of checker.now) None
        (map declaration decls.now)) }
{
    let mut found = None;
    for d in decls {
        found = first(found, broken_decl(alloc, checker, d)?);
    }
    Ok(found)
}

/// The first breach of a program, whose names mean this outside of procedures.
fn broken_under(
    alloc: Global,
    checker: &Checker,
    p: &Program,
) -> Result<Option<AffineFault>, AllocError>
    ensures { IfOk result (λ f. f ≡ rule.broken_under (names_of checker.now) (whole p.now)) }
{
    let declared = broken_decls(alloc, checker, &p.decls)?;
    Ok(first(declared, broken_body(alloc, checker, &[], &p.main)?))
}

/// The first breach of a program.
fn first_broken(alloc: Global, p: &Program) -> Result<Option<AffineFault>, AllocError>
    ensures { IfOk result (λ f. f ≡ rule.broken_in_program (whole p.now)) }
{
    let tables = name_tables(alloc, &p.decls)?;
    let checker = Checker {
        shared: &tables.shared,
        procs: &tables.procs,
        funs: &tables.funs,
        inside: false,
    };
    broken_under(alloc, &checker, p)
}

/// Whether a well-typed program keeps the affine rule; else its first breach, at the least place,
/// and there of the least number. A program that keeps it never joins a revision twice. The error
/// `OutOfMemory` says nothing of the program.
pub fn affine(alloc: Global, typed: &Typed) -> Result<(), AffineFault>
    ensures keeps { OnOk result (IsAffine (whole typed.now.expanded.program)) }
    ensures never { OnOk result
        ((s : Setting) (fuel : ℕ) → s.program ≡ whole typed.now.expanded.program
        → NeverTwice s fuel) }
    ensures breaks { IfErr result (Refuses (whole typed.now.expanded.program)) }
{
    match first_broken(alloc, &typed.expanded.program)? {
        None => Ok(()),
        Some(fault) => Err(fault),
    }
}
