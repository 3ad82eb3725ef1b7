//! A turn: one task is done.

ghost use Rattle.std.specs.Prelude.{◌≡◌, ◌<◌, ◌+◌, ◌^◌, ◌++◌, IfOk, List, length};
ghost use Rattle.rev_syntax.specs.View.{expression, expressions};
ghost use Rattle.rev_code.specs.declared.code.Instr.{Instr as Written};
ghost use Rattle.code_generation.specs.Expressions.{expression_code, expressions_code};
ghost use Rattle.emit_code.specs.Naming.{numbers_of};
ghost use Rattle.emit_code.specs.Work.{done, done_all, whole_size, arguments_size};
ghost use Rattle.emit_code.specs.Work.{steps_size, task_size};
ghost use Rattle.emit_code.specs.declared.task.Task.TheVariants as t;

use crate::known::Known;
use crate::operators::{Way, decides, unary, way_of};
use crate::task::{Steps, Task};
use crate::writing::{here, patch, put};
use rev_code::Instr;
use rev_syntax::{Expr, Link, Node};
use std::alloc::AllocError;

/// What comes of the code of an expression.
fn begin<'a>(known: &Known, e: &'a Expr) -> Steps<'a>
    ensures meaning { (code : List Written)
        → done_all (numbers_of known.now.numbers.now) known.now.scope.now result code
        ≡ code ++ expression_code (numbers_of known.now.numbers.now) known.now.scope.now
        (expression e.now) (length code) }
    ensures smaller { steps_size result < whole_size (expression e.now) }
{
    match &e.node {
        Node::Int(n) => Steps::One(Task::Put(Instr::PushInt(*n))),
        Node::Bool(b) => Steps::One(Task::Put(Instr::PushBool(*b))),
        Node::NoRev => Steps::One(Task::Put(Instr::PushNone)),
        Node::Var(name) => Steps::One(Task::Put(known.load(name))),
        Node::Inputs { .. } => Steps::One(Task::Put(Instr::CountInput)),
        Node::Cell { name, index } => Steps::Two {
            first: Task::Whole(index),
            then: Task::Put(Instr::LoadCell(known.numbers.var(name))),
        },
        Node::Input { index, .. } => Steps::Two {
            first: Task::Whole(index),
            then: Task::Put(Instr::LoadInput),
        },
        Node::Unary { op, part } => Steps::Two {
            first: Task::Whole(part),
            then: Task::Put(unary(*op)),
        },
        Node::Apply { name, args } => Steps::Two {
            first: Task::Arguments(args),
            then: Task::Put(Instr::Apply(known.numbers.fun(name))),
        },
        Node::Pick { test, yes, no } => Steps::Two {
            first: Task::Whole(test),
            then: Task::Choose { yes, no },
        },
        Node::Chain { first, rest } => Steps::Two {
            first: Task::Whole(first),
            then: Task::Links(rest),
        },
    }
}

/// What comes of the code of arguments.
fn begin_arguments<'a>(known: &Known, args: &'a [Expr]) -> Steps<'a>
    ensures meaning { (code : List Written)
        → done_all (numbers_of known.now.numbers.now) known.now.scope.now result code
        ≡ code ++ expressions_code (numbers_of known.now.numbers.now) known.now.scope.now
        (expressions args.now) (length code) }
    ensures smaller { steps_size result < arguments_size (expressions args.now) }
{
    match args.split_first() {
        Some((arg, rest)) => Steps::Two {
            first: Task::Whole(arg),
            then: Task::Arguments(rest),
        },
        None => Steps::Nothing,
    }
}

/// What comes of the code of links: a jump stands before a right operand that may be left out.
fn begin_links<'a>(
    known: &Known,
    code: &mut Vec<Instr>,
    all: &'a [Link],
) -> Result<Steps<'a>, AllocError>
    ensures meaning { IfOk result (λ steps.
        done_all (numbers_of known.now.numbers.now) known.now.scope.now steps code.new.items
        ≡ done (numbers_of known.now.numbers.now) known.now.scope.now (t.Links all.entry)
        code.old.items) }
    ensures smaller { IfOk result (λ steps. steps_size steps < task_size (t.Links all.entry)) }
{
    let Some((link, rest)) = all.split_first() else {
        return Ok(Steps::Nothing);
    };
    let first = Task::Whole(&link.part);
    match way_of(link.op) {
        Way::Works(by) => Ok(Steps::Two {
            first,
            then: Task::Operate { by, rest },
        }),
        Way::Decided(by) => {
            let test = code.len();
            put(code, decides(by, 0))?;
            Ok(Steps::Two {
                first,
                then: Task::Decided { test, by, rest },
            })
        }
    }
}

/// Behind the test of a `pick`.
fn choose<'a>(
    known: &Known,
    code: &mut Vec<Instr>,
    yes: &'a Expr,
    no: &'a Expr,
) -> Result<Steps<'a>, AllocError>
    ensures meaning { IfOk result (λ steps.
        done_all (numbers_of known.now.numbers.now) known.now.scope.now steps code.new.items
        ≡ done (numbers_of known.now.numbers.now) known.now.scope.now (t.Choose yes.entry no.entry)
        code.old.items) }
    ensures smaller { IfOk result
        (λ steps. steps_size steps < task_size (t.Choose yes.entry no.entry)) }
{
    let test = code.len();
    put(code, Instr::JumpIfFalse(0))?;
    Ok(Steps::Two {
        first: Task::Whole(yes),
        then: Task::Otherwise { test, no },
    })
}

/// Behind the second part of a `pick`.
fn otherwise<'a>(
    known: &Known,
    code: &mut Vec<Instr>,
    test: usize,
    no: &'a Expr,
) -> Result<Steps<'a>, AllocError>
    requires { length code.old.items + 1 < 2 ^ 32 }
    ensures meaning { IfOk result (λ steps.
        done_all (numbers_of known.now.numbers.now) known.now.scope.now steps code.new.items
        ≡ done (numbers_of known.now.numbers.now) known.now.scope.now (t.Otherwise test no.entry)
        code.old.items) }
    ensures smaller { IfOk result
        (λ steps. steps_size steps < task_size (t.Otherwise test no.entry)) }
{
    let end = code.len();
    put(code, Instr::Jump(0))?;
    let to = here(code);
    patch(code, test, Instr::JumpIfFalse(to));
    Ok(Steps::Two {
        first: Task::Whole(no),
        then: Task::Land(end),
    })
}

/// Behind a right operand that may be left out.
fn decided<'a>(
    known: &Known,
    code: &mut Vec<Instr>,
    test: usize,
    by: bool,
    rest: &'a [Link],
) -> Result<Steps<'a>, AllocError>
    requires { length code.old.items + 2 < 2 ^ 32 }
    ensures meaning { IfOk result (λ steps.
        done_all (numbers_of known.now.numbers.now) known.now.scope.now steps code.new.items
        ≡ done (numbers_of known.now.numbers.now) known.now.scope.now (t.Decided test by rest.entry)
        code.old.items) }
    ensures smaller { IfOk result
        (λ steps. steps_size steps < task_size (t.Decided test by rest.entry)) }
{
    let end = here(code) + 2;
    put(code, Instr::Jump(end))?;
    let to = here(code);
    put(code, Instr::PushBool(by))?;
    patch(code, test, decides(by, to));
    Ok(Steps::One(Task::Links(rest)))
}

/// One task is done, or begun.
pub fn turn<'a>(
    known: &Known,
    code: &mut Vec<Instr>,
    task: Task<'a>,
) -> Result<Steps<'a>, AllocError>
    requires { length
        (done (numbers_of known.now.numbers.now) known.now.scope.now task code.old.items)
        < 2 ^ 32 }
    ensures meaning { IfOk result (λ steps.
        done_all (numbers_of known.now.numbers.now) known.now.scope.now steps code.new.items
        ≡ done (numbers_of known.now.numbers.now) known.now.scope.now task.entry code.old.items) }
    ensures smaller { IfOk result (λ steps. steps_size steps < task_size task.entry) }
{
    match task {
        Task::Whole(e) => Ok(begin(known, e)),
        Task::Arguments(args) => Ok(begin_arguments(known, args)),
        Task::Links(rest) => begin_links(known, code, rest),
        Task::Choose { yes, no } => choose(known, code, yes, no),
        Task::Otherwise { test, no } => otherwise(known, code, test, no),
        Task::Decided { test, by, rest } => decided(known, code, test, by, rest),
        Task::Put(x) => {
            put(code, x)?;
            Ok(Steps::Nothing)
        }
        Task::Operate { by, rest } => {
            put(code, by)?;
            Ok(Steps::One(Task::Links(rest)))
        }
        Task::Land(at) => {
            let end = here(code);
            patch(code, at, Instr::Jump(end));
            Ok(Steps::Nothing)
        }
    }
}
