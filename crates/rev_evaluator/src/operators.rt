//! The operators.

ghost use Rattle.std.specs.Prelude.{◌≡◌, option_map};
ghost use Rattle.typed_programs.specs.Value as spec;
ghost use Rattle.rev_evaluator.specs.Seen.{answer, seen};

use crate::seen::Seen;
use rev_num::{Cause, NumFault};
use rev_syntax::{BinaryOp, UnaryOp};

/// The number of an int; 0 for another value.
pub fn number(x: Seen) -> i64
    ensures { result ≡ spec.number_of (seen x.entry) }
{
    match x {
        Seen::Int(n) => n,
        Seen::Bool(_) => 0,
        Seen::Rev(_) => 0,
    }
}

/// Whether a bool is true; another value counts as false.
pub fn truth(x: Seen) -> bool
    ensures { result ≡ spec.truth_of (seen x.entry) }
{
    match x {
        Seen::Int(_) => false,
        Seen::Bool(b) => b,
        Seen::Rev(_) => false,
    }
}

/// Whether two ints or two bools are the same; other values count as different.
pub fn same_value(x: Seen, y: Seen) -> bool
    ensures { result ≡ spec.same_value (seen x.entry) (seen y.entry) }
{
    match (x, y) {
        (Seen::Int(m), Seen::Int(n)) => m == n,
        (Seen::Bool(a), Seen::Bool(b)) => a == b,
        _ => false,
    }
}

/// The outcome of checked arithmetic.
pub fn checked<'a>(outcome: Result<i64, NumFault>) -> Result<Seen<'a>, Cause>
    ensures { answer result ≡ spec.number outcome }
{
    match outcome {
        Ok(n) => Ok(Seen::Int(n)),
        Err(NumFault::Overflow) => Err(Cause::Overflow),
        Err(NumFault::ZeroDivisor) => Err(Cause::ZeroDivisor),
    }
}

/// A truth value as the value of an expression.
pub fn flag<'a>(b: bool) -> Result<Seen<'a>, Cause>
    ensures { answer result ≡ spec.flag b }
{
    Ok(Seen::Bool(b))
}

/// An operator that takes both operands.
pub fn operated<'a>(op: BinaryOp, x: Seen<'a>, y: Seen<'a>) -> Result<Seen<'a>, Cause>
    ensures { answer result ≡ spec.operated op (seen x.entry) (seen y.entry) }
{
    match op {
        BinaryOp::Add => checked(rev_num::add(number(x), number(y))),
        BinaryOp::Sub => checked(rev_num::sub(number(x), number(y))),
        BinaryOp::Mul => checked(rev_num::mul(number(x), number(y))),
        BinaryOp::Div => checked(rev_num::div(number(x), number(y))),
        BinaryOp::Rem => checked(rev_num::rem(number(x), number(y))),
        BinaryOp::Eq => flag(same_value(x, y)),
        BinaryOp::Ne => flag(!same_value(x, y)),
        BinaryOp::Lt => flag(number(x) < number(y)),
        BinaryOp::Le => flag(number(x) <= number(y)),
        BinaryOp::Gt => flag(number(x) > number(y)),
        BinaryOp::Ge => flag(number(x) >= number(y)),
        BinaryOp::And => Ok(y),
        BinaryOp::Or => Ok(y),
    }
}

/// The value of an operator that stands before its only operand.
pub fn reversed<'a>(op: UnaryOp, x: Seen) -> Result<Seen<'a>, Cause>
    ensures { answer result ≡ spec.reversed op (seen x.entry) }
{
    match op {
        UnaryOp::Neg => checked(rev_num::neg(number(x))),
        UnaryOp::Not => flag(!truth(x)),
    }
}

/// What the left operand gives without the right one.
pub fn short<'a>(op: BinaryOp, x: Seen) -> Option<Seen<'a>>
    ensures { option_map seen result ≡ spec.short op (seen x.entry) }
{
    match op {
        BinaryOp::And => {
            if truth(x) {
                None
            } else {
                Some(Seen::Bool(false))
            }
        }
        BinaryOp::Or => {
            if truth(x) {
                Some(Seen::Bool(true))
            } else {
                None
            }
        }
        _ => None,
    }
}
