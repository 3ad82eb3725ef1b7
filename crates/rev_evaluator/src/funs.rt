//! The funs that a program declares.

ghost use Rattle.std.specs.Prelude.{◌≡◌, ◌<◌, ◌≤◌, IfSome, drop, map, option_map, slice_get};
ghost use Rattle.std.specs.Option.{option_copied};
ghost use Rattle.rev_syntax.specs.View.{declaration, expression, parameter};
ghost use Rattle.typed_programs.specs.Definitions.{names_of};
ghost use Rattle.typed_programs.specs.Evaluation as meant;
ghost use Rattle.typed_programs.specs.Weights.{name_within, weight_of};
ghost use Rattle.rev_evaluator.specs.Declarations.{declared_by};

use rev_syntax::{Decl, Expr, Name, Param};
use typed_programs::Expanded;

/// The declaration of the fun that a name means among the program's first `within` declarations.
pub fn fun_before(expanded: &Expanded, within: usize, name: &Name) -> Option<usize>
    ensures earlier { IfSome result (λ d. d < within) }
    ensures lighter { weight_of (declared_by expanded.now) result
        ≤ name_within (declared_by expanded.now) within name.now.text.items }
    ensures meaning { meant.IsMeant (declared_by expanded.now) within name.now.text.items result }
{
    let head = expanded.table.find(&name.text)?;
    let decl = head.decl as usize;
    if decl < within { Some(decl) } else { None }
}

/// The declaration of this number.
#[tactic(auto, using(typed_programs::proofs::Declared::slice_get_mapped))]
pub fn declared(expanded: &Expanded, number: usize) -> Option<&Decl>
    ensures { option_map declaration (option_copied result)
        ≡ slice_get (declared_by expanded.now) number }
{
    expanded.program.decls.get(number)
}

/// The parameters of a declared fun.
pub fn fun_params(decl: &Decl) -> &[Param]
    ensures { names_of (map parameter result.now) ≡ meant.fun_params (declaration decl.now) }
{
    match decl {
        Decl::Fun { params, .. } => params,
        _ => &[],
    }
}

/// The body of a declared fun.
pub fn fun_body(decl: &Decl) -> Option<&Expr>
    ensures { option_map expression (option_copied result) ≡ meant.fun_body (declaration decl.now) }
{
    match decl {
        Decl::Fun { body, .. } => Some(body),
        _ => None,
    }
}

/// The parameters of the fun that is declared at this number.
pub fn params_at(expanded: &Expanded, fun: Option<usize>) -> &[Param]
    ensures { names_of (map parameter result.now)
        ≡ meant.params_at (declared_by expanded.now) fun }
{
    match fun {
        Some(number) => match declared(expanded, number) {
            Some(decl) => fun_params(decl),
            None => &[],
        },
        None => &[],
    }
}

/// The body of the fun that is declared at this number.
pub fn body_at(expanded: &Expanded, number: usize) -> Option<&Expr>
    ensures { option_map expression (option_copied result)
        ≡ meant.body_at (declared_by expanded.now) number }
{
    match declared(expanded, number) {
        Some(decl) => fun_body(decl),
        None => None,
    }
}

/// The parameters behind the first of them.
pub fn behind(params: &[Param], first: usize) -> &[Param]
    ensures { result.now ≡ drop first params.now }
{
    params.get(first..).unwrap_or(&[])
}
