//! The rules on declarations.

ghost use Rattle.std.specs.Prelude.{◌≡◌, ◌-◌, true, Some, None, map, option_map, IfOk, OnOk};
ghost use Rattle.std.specs.declared.option.Option.{Option};
ghost use Rattle.rev_syntax.specs.View.{statement_form, arms, parameter, block};
ghost use Rattle.rev_syntax.specs.View.{constant, declaration, array_size, stmt};
ghost use Rattle.rev_syntax.specs.View.{stmts, expression, placed_name};
ghost use Rattle.name_tables.specs.Table.{find};
ghost use Rattle.rev_report.specs.declared.limit.Limit.TheVariants as limits;
ghost use Rattle.rev_report.specs.Limits.{first_past};
ghost use Rattle.rev_kinds.specs.Walk.{both, names_of};
ghost use Rattle.rev_types.specs.Passing.{passed_of};
ghost use Rattle.typed_programs.specs.Program as program;
ghost use Rattle.typed_programs.specs.Scopes as scopes;
ghost use Rattle.typed_programs.specs.Statements as statements;
ghost use Rattle.rev_types.specs.Walk as rule;

use crate::passed::{Passed, cells_in, located_after};
use crate::statements::{Body, block, new_local, one_more_local};
use name_tables::NameTable;
use rev_kinds::{Checker, Locals, first, not_rev, wants};
use rev_num::{ValueKind, same_kind};
use rev_report::Limit;
use rev_syntax::{Arm, Block, Const, Decl, Expr, Form, Name, Param, Size, Stmt};
use std::alloc::{AllocError, Global};
use typed_programs::TypeFault;

// ---- which blocks return

#[cycle(returns)]
fn stmt_returns(s: &Stmt) -> bool
    ensures { result ≡ statements.statement_returns (stmt s.now) }
{
    form_returns(&s.form)
}

#[cycle(returns)]
fn form_returns(form: &Form) -> bool
    ensures { result ≡ statements.statement_form_returns (statement_form form.now) }
{
    match form {
        Form::Return { .. } => true,
        Form::If { arms, last } => match last {
            None => false,
            Some(last) => arms_return(arms) && returns(last),
        },
        Form::Let { .. } => false,
        Form::Assign { .. } => false,
        Form::AssignCell { .. } => false,
        Form::While { .. } => false,
        Form::Call { .. } => false,
        Form::Fork { .. } => false,
        Form::Join { .. } => false,
        Form::Print { .. } => false,
        Form::Assert { .. } => false,
    }
}

/// Whether a block returns: its last statement is `return`, or an `if` with a last `else` whose
/// blocks all return.
#[cycle(returns)]
pub fn returns(b: &Block) -> bool
    ensures { result ≡ statements.returns (block b.now) }
{
    let mut last = false;
    for s in &b.stmts {
        last = stmt_returns(s);
    }
    last
}

#[cycle(returns)]
fn arms_return(all: &[Arm]) -> bool
    ensures { result ≡ statements.arms_return true (arms all.now) }
{
    let mut every = true;
    for arm in all {
        every = every && returns(&arm.body);
    }
    every
}

// ---- names and limits

/// A name that no declaration before has.
fn new_name(name: &Name, names: &NameTable<u32>) -> Option<TypeFault>
    ensures { result ≡ rule.new_name (placed_name name.now) names.now }
{
    if names.find(&name.text).is_some() {
        Some(TypeFault::Redeclared { at: name.at })
    } else {
        None
    }
}

/// The first past a limit, where this many are left up to and with it.
fn limit_at(at: u32, which: Limit, left: usize) -> Option<TypeFault>
    ensures { result ≡ rule.limit_at at which left }
{
    if left == 1 {
        Some(TypeFault::exceeded(which, at))
    } else {
        None
    }
}

/// A parameter that no earlier one has the name of.
fn new_param(name: &Name, locals: &Locals) -> Option<TypeFault>
    ensures { result ≡ rule.new_param (placed_name name.now) locals.now }
{
    if locals.find(&name.text).is_some() {
        Some(TypeFault::Redeclared { at: name.at })
    } else {
        None
    }
}

/// A weight within the limit.
fn weight_of(name: &Name, weight: u32) -> Option<TypeFault>
    ensures { result ≡ rule.weight_of (placed_name name.now) weight }
{
    if weight > Limit::Weight.most() {
        Some(TypeFault::exceeded(Limit::Weight, name.at))
    } else {
        None
    }
}

/// A fun's parameter, which is no handle.
fn no_rev_param(param: &Param) -> Option<TypeFault>
    ensures { result ≡ program.no_rev_param None Some both (parameter param.now) }
{
    if same_kind(param.kind, ValueKind::Rev) {
        Some(TypeFault::WrongType { at: param.kind_at })
    } else {
        None
    }
}

/// The result of a fun, which is no handle.
fn fun_result(name: &Name, result_kind: ValueKind) -> Option<TypeFault>
    ensures { result ≡ rule.fun_result (placed_name name.now) result_kind }
{
    if same_kind(result_kind, ValueKind::Rev) {
        Some(TypeFault::WrongType { at: name.at })
    } else {
        None
    }
}

// ---- parameters

/// One parameter of a fun.
fn fun_param(locals: &Locals, left: usize, param: &Param) -> Option<TypeFault>
    ensures { result ≡ program.fun_param None Some both locals.now left (parameter param.now) }
{
    let limit = limit_at(param.name.at, Limit::Parameters, left);
    first(
        new_param(&param.name, locals),
        first(no_rev_param(param), limit),
    )
}

/// The parameters of a fun, which become its locals.
fn fun_params(
    alloc: Global,
    locals: &mut Locals,
    params: &[Param],
) -> Result<Option<TypeFault>, AllocError>
    ensures fault { IfOk result
        (λ f. f ≡ rule.fun_params locals.old (first_past limits.Parameters) None
        (map parameter params.now)) }
    ensures locals { OnOk result
        (locals.new ≡ scopes.with_params locals.old (map parameter params.now)) }
{
    let mut left = Limit::Parameters.first_past();
    let mut found = None;
    for param in params {
        found = first(found, fun_param(locals, left, param));
        locals.add(alloc, &param.name.text, Some(param.kind))?;
        left = left.saturating_sub(1);
    }
    Ok(found)
}

/// One parameter of a procedure.
fn proc_param(outer: &Checker, body: &Body, left: usize, param: &Param) -> Option<TypeFault>
    ensures { result
        ≡ program.proc_param None Some both (names_of outer.now) body.now.locals left body.now.left
        (parameter param.now) }
{
    let name = &param.name;
    let taken = new_local(name, body.locals.find(&name.text), outer.holder(name));
    let limit = limit_at(name.at, Limit::Parameters, left);
    first(taken, first(limit, one_more_local(name, body.left)))
}

/// The parameters of a procedure, which become its locals.
fn proc_params(
    alloc: Global,
    outer: &Checker,
    body: &mut Body,
    params: &[Param],
) -> Result<Option<TypeFault>, AllocError>
    ensures fault { IfOk result
        (λ f. f ≡ rule.proc_params (names_of outer.now) body.old.locals
        (first_past limits.Parameters) body.old.left None (map parameter params.now)) }
    ensures locals { OnOk result
        (body.new.locals ≡ scopes.with_params body.old.locals (map parameter params.now)) }
    ensures left { OnOk result
        (body.new.left ≡ program.left_params body.old.left (map parameter params.now)) }
{
    let mut left = Limit::Parameters.first_past();
    let mut found = None;
    for param in params {
        found = first(found, proc_param(outer, body, left, param));
        body.locals.add(alloc, &param.name.text, Some(param.kind))?;
        body.left = body.left.saturating_sub(1);
        left = left.saturating_sub(1);
    }
    Ok(found)
}

// ---- declarations

/// The body of a fun, which has the kind of the result, and no handle's.
fn fun_body(
    inner: &Checker,
    locals: &Locals,
    result_kind: ValueKind,
    body: &Expr,
) -> Option<TypeFault>
    ensures { result
        ≡ rule.fun_body (names_of inner.now) locals.now result_kind (expression body.now) }
{
    let seen = inner.expression(locals, body);
    let wanted = wants(body.at, seen.kind, result_kind);
    first(first(seen.fault, wanted), not_rev(body.at, seen.kind))
}

/// A fun, of whose body this is the weight.
fn fun_decl(
    alloc: Global,
    inner: &Checker,
    passed: &Passed,
    name: &Name,
    params: &[Param],
    result_kind: ValueKind,
    body: (&Expr, u32),
) -> Result<Option<TypeFault>, AllocError>
    requires { body.1 ≡ program.weight passed.now.weights (expression body.0.now) }
    ensures { IfOk result
        (λ f. f ≡ program.broken_in_fun None Some both (names_of inner.now) (passed_of passed.now)
        (placed_name name.now) (map parameter params.now) result_kind
        (expression body.entry.0.now)) }
{
    let mut locals = NameTable::new(alloc);
    let named = first(
        new_name(name, &passed.names),
        limit_at(name.at, Limit::Funs, passed.funs_left),
    );
    let params = fun_params(alloc, &mut locals, params)?;
    let head = first(params, fun_result(name, result_kind));
    let (body, weight) = body;
    let rest = first(
        fun_body(inner, &locals, result_kind, body),
        weight_of(name, weight),
    );
    Ok(first(named, first(head, rest)))
}

/// The locals of a merge.
fn merge_locals(
    alloc: Global,
    main: &Name,
    join: &Name,
    root: &Name,
) -> Result<(Option<TypeFault>, Locals), AllocError>
    ensures fault { IfOk result
        (λ r. r.0
        ≡ rule.merge_params (placed_name main.now) (placed_name join.now) (placed_name root.now)) }
    ensures locals { IfOk result
        (λ r. r.1
        ≡ scopes.merge_locals (placed_name main.now) (placed_name join.now)
        (placed_name root.now)) }
{
    let mut locals = NameTable::new(alloc);
    locals.add(alloc, &main.text, Some(ValueKind::Int))?;
    let second = new_param(join, &locals);
    locals.add(alloc, &join.text, Some(ValueKind::Int))?;
    let third = new_param(root, &locals);
    locals.add(alloc, &root.text, Some(ValueKind::Int))?;
    Ok((first(second, third), locals))
}

/// A merge, of whose body this is the weight.
fn merge_decl(
    alloc: Global,
    inner: &Checker,
    passed: &Passed,
    name: &Name,
    params: (&Name, &Name, &Name),
    body: (&Expr, u32),
) -> Result<Option<TypeFault>, AllocError>
    requires { body.1 ≡ program.weight passed.now.weights (expression body.0.now) }
    ensures { IfOk result
        (λ f. f ≡ program.broken_in_merge None Some both (names_of inner.now) (passed_of passed.now)
        (placed_name name.now) (placed_name params.entry.0.now) (placed_name params.entry.1.now)
        (placed_name params.entry.2.now) (expression body.entry.0.now)) }
{
    let named = first(
        new_name(name, &passed.names),
        limit_at(name.at, Limit::Funs, passed.funs_left),
    );
    let (params, locals) = merge_locals(alloc, params.0, params.1, params.2)?;
    let (body, weight) = body;
    let rest = first(
        inner.part(&locals, body, ValueKind::Int),
        weight_of(name, weight),
    );
    Ok(first(named, first(params, rest)))
}

/// The name after `by`, which is that of a merge that is declared before.
fn by_use(merges: &NameTable<u32>, by: &Option<Name>) -> Option<TypeFault>
    ensures { result ≡ rule.by_use merges.now (option_map placed_name by.now) }
{
    match by {
        None => None,
        Some(name) => {
            if merges.find(&name.text).is_some() {
                None
            } else {
                Some(TypeFault::UnknownName { at: name.at })
            }
        }
    }
}

/// The kind of a cumulative variable, which is int.
fn cumulative_kind(by: &Option<Name>, at: u32, found: ValueKind) -> Option<TypeFault>
    ensures { result ≡ rule.cumulative_kind (option_map placed_name by.now) at found }
{
    match by {
        None => None,
        Some(_) => {
            if same_kind(found, ValueKind::Int) {
                None
            } else {
                Some(TypeFault::WrongType { at })
            }
        }
    }
}

/// The size of an array, which is not 0.
fn size_use(size: Option<Size>) -> Option<TypeFault>
    ensures { result ≡ rule.size_use (option_map array_size size) }
{
    match size {
        None => None,
        Some(size) => {
            if size.cells <= 0 {
                Some(TypeFault::WrongCount { at: size.at })
            } else {
                None
            }
        }
    }
}

/// A start value, which has the variable's kind.
fn first_value(value: &Option<Const>, wanted: ValueKind) -> Option<TypeFault>
    ensures { result ≡ rule.first_value (option_map constant value.now) wanted }
{
    match value {
        None => None,
        Some(value) => wants(value.at, Some(value.value.kind()), wanted),
    }
}

/// The variable with which there are too many locations.
fn location_limit(name: &Name, before: u32, after: u32) -> Option<TypeFault>
    ensures { result ≡ rule.location_limit (placed_name name.now) before after }
{
    let limit = Limit::Locations.most();
    if before > limit {
        return None;
    }
    if after > limit {
        return Some(TypeFault::exceeded(Limit::Locations, name.at));
    }
    None
}

/// A procedure with a result, which returns.
fn return_use(name: &Name, result_kind: Option<ValueKind>, returns: bool) -> Option<TypeFault>
    ensures { result ≡ rule.return_use (placed_name name.now) result_kind returns }
{
    match result_kind {
        None => None,
        Some(_) => {
            if returns {
                None
            } else {
                Some(TypeFault::NoReturn { at: name.at })
            }
        }
    }
}

/// The first fault of a procedure, or none.
fn proc_decl(
    alloc: Global,
    outer: &Checker,
    passed: &Passed,
    name: &Name,
    params: &[Param],
    result_kind: Option<ValueKind>,
    body: &Block,
) -> Result<Option<TypeFault>, AllocError>
    ensures { IfOk result
        (λ f. f ≡ program.broken_in_proc None Some both (names_of outer.now) (passed_of passed.now)
        (placed_name name.now) (map parameter params.now) result_kind (block body.now)) }
{
    let mut inside = Body::new(alloc);
    let named = first(
        new_name(name, &passed.names),
        limit_at(name.at, Limit::Procedures, passed.procs_left),
    );
    let params = proc_params(alloc, outer, &mut inside, params)?;
    let head = first(params, return_use(name, result_kind, returns(body)));
    let rest = block(alloc, outer, result_kind, &mut inside, body)?;
    Ok(first(named, first(head, rest)))
}

/// A shared variable.
fn shared_decl(
    passed: &Passed,
    name: &Name,
    by: &Option<Name>,
    kind: (u32, ValueKind),
    size: Option<Size>,
    start: &Option<Const>,
) -> Option<TypeFault>
    ensures { result
        ≡ program.broken_in_shared None Some both (passed_of passed.now)
        (record {
          name = placed_name name.now;
          by = option_map placed_name by.now;
          kind_at = kind.0;
          holds = kind.1;
          size = option_map array_size size;
          first = option_map constant start.now;
        }) }
{
    let after = located_after(passed.located, cells_in(size));
    let named = first(
        new_name(name, &passed.names),
        location_limit(name, passed.located, after),
    );
    let merged = first(
        by_use(&passed.merges, by),
        cumulative_kind(by, kind.0, kind.1),
    );
    let cells = first(size_use(size), first_value(start, kind.1));
    first(named, first(merged, cells))
}

/// A declaration, where names mean this outside of funs and merges, and this inside. The body of a
/// fun or of a merge has this weight.
pub fn decl(
    alloc: Global,
    outer: &Checker,
    inner: &Checker,
    passed: &Passed,
    weight: u32,
    d: &Decl,
) -> Result<Option<TypeFault>, AllocError>
    requires { weight ≡ program.body_weight (passed_of passed.now) (declaration d.now) }
    ensures { IfOk result
        (λ f. f ≡ rule.broken_in_declaration (names_of outer.now) (names_of inner.now)
        (passed_of passed.now) (declaration d.now)) }
{
    match d {
        Decl::Fun {
            name,
            params,
            result,
            body,
        } => { fun_decl(alloc, inner, passed, name, params, *result, (body, weight)) }
        Decl::Merge {
            name,
            main,
            join,
            root,
            body,
        } => {
            merge_decl(
                alloc,
                inner,
                passed,
                name,
                (main, join, root),
                (body, weight),
            )
        }
        Decl::Shared {
            name,
            by,
            kind_at,
            holds,
            size,
            first,
        } => { Ok(shared_decl(passed, name, by, (*kind_at, *holds), *size, first)) }
        Decl::Proc {
            name,
            params,
            result,
            body,
        } => { proc_decl(alloc, outer, passed, name, params, *result, body) }
    }
}
