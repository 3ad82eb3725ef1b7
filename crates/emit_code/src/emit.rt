//! The code of an expression, in turns.

ghost use Rattle.std.specs.Prelude.{◌≡◌, ◌<◌, ◌+◌, ◌^◌, ◌++◌, OnOk, length};
ghost use Rattle.rev_syntax.specs.View.{expression, expressions};
ghost use Rattle.code_generation.specs.Expressions.{expression_code, expressions_code};
ghost use Rattle.code_generation.specs.Expressions.{expression_size, expressions_size};
ghost use Rattle.emit_code.specs.Naming.{numbers_of};
ghost use Rattle.emit_code.specs.Work.{done, with_steps};

use crate::known::Known;
use crate::task::{Steps, Task};
use crate::turns::turn;
use rev_code::Instr;
use rev_syntax::Expr;
use std::alloc::{AllocError, Global};

/// Enters the tasks that come of one.
fn enter<'a>(tasks: &mut Vec<Task<'a>>, steps: Steps<'a>) -> Result<(), AllocError>
    ensures { OnOk result (tasks.new.items ≡ with_steps tasks.old.items steps.entry) }
{
    match steps {
        Steps::Nothing => Ok(()),
        Steps::One(first) => {
            tasks.push(first)?;
            Ok(())
        }
        Steps::Two { first, then } => {
            tasks.push(then)?;
            tasks.push(first)?;
            Ok(())
        }
    }
}

/// Does a task and all that comes of it.
fn work<'a>(
    alloc: Global,
    known: &Known,
    code: &mut Vec<Instr>,
    task: Task<'a>,
) -> Result<(), AllocError>
    requires { length
        (done (numbers_of known.now.numbers.now) known.now.scope.now task code.old.items)
        < 2 ^ 32 }
    ensures { OnOk result
        (code.new.items
        ≡ done (numbers_of known.now.numbers.now) known.now.scope.now task.entry code.old.items) }
{
    let mut tasks = Vec::new(alloc);
    tasks.push(task)?;
    while let Some(task) = tasks.pop() {
        let steps = turn(known, code, task)?;
        enter(&mut tasks, steps)?;
    }
    Ok(())
}

/// Writes the code of an expression.
pub fn emit_expression(
    alloc: Global,
    known: &Known,
    code: &mut Vec<Instr>,
    e: &Expr,
) -> Result<(), AllocError>
    requires { length code.old.items + expression_size (expression e.now) < 2 ^ 32 }
    ensures code { OnOk result
        (code.new.items
        ≡ code.old.items ++ expression_code (numbers_of known.now.numbers.now) known.now.scope.now
        (expression e.now) (length code.old.items)) }
    ensures long { OnOk result
        (length code.new.items ≡ length code.old.items + expression_size (expression e.now)) }
{
    work(alloc, known, code, Task::Whole(e))?;
    Ok(())
}

/// Writes the code of arguments, from left to right.
pub fn emit_arguments(
    alloc: Global,
    known: &Known,
    code: &mut Vec<Instr>,
    args: &[Expr],
) -> Result<(), AllocError>
    requires { length code.old.items + expressions_size (expressions args.now) < 2 ^ 32 }
    ensures code { OnOk result
        (code.new.items
        ≡ code.old.items ++ expressions_code (numbers_of known.now.numbers.now) known.now.scope.now
        (expressions args.now) (length code.old.items)) }
    ensures long { OnOk result
        (length code.new.items ≡ length code.old.items + expressions_size (expressions args.now)) }
{
    work(alloc, known, code, Task::Arguments(args))?;
    Ok(())
}
