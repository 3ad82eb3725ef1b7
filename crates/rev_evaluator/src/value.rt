//! The value of an expression, in turns.

ghost use Rattle.std.specs.Prelude.{◌≡◌, ◌<◌, ◌≤◌, ◌+◌, ◌++◌, IfSome, map};
ghost use Rattle.rev_syntax.specs.View.{expression, expressions, parameter, program as whole};
ghost use Rattle.typed_programs.specs.Definitions.{funs_in, names_of};
ghost use Rattle.typed_programs.specs.Evaluation as meant;
ghost use Rattle.typed_programs.specs.Value.{value};
ghost use Rattle.typed_programs.specs.Weights.{args_within, name_within, weight_of, weight_within};
ghost use Rattle.rev_evaluator.specs.Declarations.{declared_by};
ghost use Rattle.rev_evaluator.specs.Environment as spec;
ghost use Rattle.rev_evaluator.specs.Locals.{local};
ghost use Rattle.rev_evaluator.specs.Seen.{answer, seen};
ghost use Rattle.rev_evaluator.specs.Work.{application, passed};

use crate::environment::{Environment, Reads};
use crate::funs::{behind, body_at, fun_before, params_at};
use crate::locals::{Locals, arguments, bound};
use crate::seen::Seen;
use crate::work::{Call, Next, Pending, ROOM, begin, give, keep, wait};
use rev_num::Cause;
use rev_syntax::{Expr, Param};
use typed_programs::Expanded;

/// What an expression knows: the program, how many of its first declarations may be used, and what
/// it reads.
#[derive(Drop)]
pub struct Scope<'s, 'l, 'a, E> {
    pub expanded: &'a Expanded,
    pub within: usize,
    pub reads: &'s Reads<'l, 'a, E>,
}

/// The value of an expression that stands outside of funs and merges, or the cause of the first
/// part that faults, from left to right.
///
/// It takes no memory but the stack, and calls itself only where a fun is applied, and for a part
/// within at least 64 others or an argument behind more than 64 values.
pub fn evaluate<'a, E: Environment>(
    expanded: &'a Expanded,
    environment: &'a E,
    e: &'a Expr,
) -> Result<Seen<'a>, Cause>
    ensures { answer result
        ≡ value (funs_in (whole expanded.now.program)) (E.env environment.now) (expression e.now) }
{
    let reads = Reads::Outside(environment);
    let scope = Scope {
        expanded,
        within: expanded.program.decls.len(),
        reads: &reads,
    };
    let mut left = 0;
    take_turns(&scope, e, &mut left)
}

/// The values of an expression's parts are taken in turn. It calls itself only where a fun is
/// applied and where too many parts wait. Each part but a chain, and each link, takes 1 from what
/// is left, as long as there is something.
#[cycle(value)]
pub fn take_turns<'s, 'l, 'a, E: Environment>(
    scope: &Scope<'s, 'l, 'a, E>,
    e: &'a Expr,
    left: &mut u32,
) -> Result<Seen<'a>, Cause>
    ensures work { left.old ≤ left.new
        + weight_within (declared_by scope.now.expanded.now) scope.now.within (expression e.now) }
    ensures answer { answer result
        ≡ meant.value_within (declared_by scope.now.expanded.now) scope.now.within
        (spec.reads E.env scope.now.reads.now) (expression e.now) }
{
    let mut pending = [Pending::Input; ROOM];
    let mut depth = 0usize;
    let mut values = [Seen::Rev(None); ROOM];
    let mut held = 0usize;
    let mut next = Next::Part(e);
    loop {
        next = match next {
            Next::Part(part) => {
                if depth < ROOM {
                    let turn = begin(scope.reads, part, left);
                    depth = wait(&mut pending, depth, turn.wait);
                    turn.next
                } else {
                    Next::Value(take_turns(scope, part, left)?)
                }
            }
            Next::Call(call) => {
                let first = held.saturating_sub(call.before);
                let value = called(scope, &values[first..held], call, left)?;
                held = first;
                Next::Value(value)
            }
            Next::Value(x) => {
                if depth == 0 {
                    return Ok(x);
                }
                depth -= 1;
                let turn = give(scope.reads, pending[depth], x, held < ROOM, left)?;
                held = keep(&mut values, held, turn.keep);
                depth = wait(&mut pending, depth, turn.wait);
                turn.next
            }
        };
    }
}

/// The value of an application some of whose arguments have these values.
#[cycle(value)]
fn called<'s, 'l, 'a, E: Environment>(
    scope: &Scope<'s, 'l, 'a, E>,
    values: &[Seen<'a>],
    call: Call<'a>,
    left: &mut u32,
) -> Result<Seen<'a>, Cause>
    ensures work { left.old ≤ left.new
        + (name_within (declared_by scope.now.expanded.now) scope.now.within
        call.entry.name.now.text.items
        + args_within (declared_by scope.now.expanded.now) scope.now.within
        (expressions call.entry.rest.now)) }
    ensures answer { answer result
        ≡ application (declared_by scope.now.expanded.now) scope.now.within
        (spec.reads E.env scope.now.reads.now) call.entry.name.now.text.items
        (map seen values.now ++ passed call.entry.value) (expressions call.entry.rest.now) }
{
    let fun = fun_before(scope.expanded, scope.within, call.name);
    let params = params_at(scope.expanded, fun);
    let empty = Locals::Empty;
    let earlier = arguments(params, &*values, &empty);
    let others = behind(params, values.len());
    match call.value {
        Some(value) => given(scope, value, call.rest, fun, others, &earlier, left),
        None => applied(scope, call.rest, fun, others, &earlier, left),
    }
}

/// The value of a fun's body, where this value and then arguments that are still to be evaluated
/// are bound to these parameters, behind others.
#[cycle(value)]
fn given<'s, 'l, 'a, E: Environment>(
    scope: &Scope<'s, 'l, 'a, E>,
    value: Seen<'a>,
    more: &'a [Expr],
    fun: Option<usize>,
    params: &'a [Param],
    earlier: &Locals<'_, 'a>,
    left: &mut u32,
) -> Result<Seen<'a>, Cause>
    requires before { IfSome fun (λ d. d < scope.now.within) }
    ensures work { left.old ≤ left.new
        + (weight_of (declared_by scope.now.expanded.now) fun
        + args_within (declared_by scope.now.expanded.now) scope.now.within
        (expressions more.now)) }
    ensures answer { answer result
        ≡ meant.given_within (declared_by scope.now.expanded.now) scope.now.within
        (spec.reads E.env scope.now.reads.now) (seen value.entry) (expressions more.now) fun
        (names_of (map parameter params.now)) (local earlier.now) }
{
    match params.split_first() {
        Some((param, others)) => {
            let inner = bound(&param.name, value, &*earlier);
            applied(scope, more, fun, others, &inner, left)
        }
        None => applied(scope, more, fun, params, &*earlier, left),
    }
}

/// The value of a fun's body, where arguments that are still to be evaluated are bound to these
/// parameters, behind others.
#[cycle(value)]
fn applied<'s, 'l, 'a, E: Environment>(
    scope: &Scope<'s, 'l, 'a, E>,
    args: &'a [Expr],
    fun: Option<usize>,
    params: &'a [Param],
    earlier: &Locals<'_, 'a>,
    left: &mut u32,
) -> Result<Seen<'a>, Cause>
    requires before { IfSome fun (λ d. d < scope.now.within) }
    ensures work { left.old ≤ left.new
        + (weight_of (declared_by scope.now.expanded.now) fun
        + args_within (declared_by scope.now.expanded.now) scope.now.within
        (expressions args.now)) }
    ensures answer { answer result
        ≡ meant.applied_within (declared_by scope.now.expanded.now) scope.now.within
        (spec.reads E.env scope.now.reads.now) (expressions args.now) fun
        (names_of (map parameter params.now)) (local earlier.now) }
{
    match args.split_first() {
        Some((arg, more)) => {
            let value = take_turns(scope, arg, left)?;
            given(scope, value, more, fun, params, &*earlier, left)
        }
        None => body_value(scope, fun, &*earlier, left),
    }
}

/// The value of the body of the fun that is declared at this number, which reads these locals
/// alone.
#[cycle(value)]
fn body_value<'s, 'l, 'a, E: Environment>(
    scope: &Scope<'s, 'l, 'a, E>,
    fun: Option<usize>,
    locals: &Locals<'_, 'a>,
    left: &mut u32,
) -> Result<Seen<'a>, Cause>
    ensures work { left.old ≤ left.new + weight_of (declared_by scope.now.expanded.now) fun }
    ensures answer { answer result
        ≡ meant.value_of_body (declared_by scope.now.expanded.now) fun (local locals.now) }
{
    let Some(number) = fun else {
        return Ok(Seen::Int(0));
    };
    match body_at(scope.expanded, number) {
        Some(body) => {
            let reads: Reads<'_, 'a, E> = Reads::Inside(&*locals);
            let inner = Scope {
                expanded: scope.expanded,
                within: number,
                reads: &reads,
            };
            take_turns(&inner, body, left)
        }
        None => Ok(Seen::Int(0)),
    }
}
