//! The instructions of operators.

ghost use Rattle.std.specs.Prelude.{◌≡◌};
ghost use Rattle.code_generation.specs.Expressions.{unary_code};
ghost use Rattle.emit_code.specs.Work as spec;
ghost use Rattle.emit_code.specs.Work.{deciding};

use rev_code::Instr;
use rev_syntax::{BinaryOp, UnaryOp};

/// How an operator with two operands goes: it is decided where the left operand has this value, or
/// an instruction works on both.
#[derive(Clone, Copy, Drop)]
pub enum Way {
    Decided(bool),
    Works(Instr),
}

/// How this operator goes.
pub fn way_of(op: BinaryOp) -> Way
    ensures { result ≡ spec.way_of op }
{
    match op {
        BinaryOp::And => Way::Decided(false),
        BinaryOp::Or => Way::Decided(true),
        BinaryOp::Add => Way::Works(Instr::Add),
        BinaryOp::Sub => Way::Works(Instr::Sub),
        BinaryOp::Mul => Way::Works(Instr::Mul),
        BinaryOp::Div => Way::Works(Instr::Div),
        BinaryOp::Rem => Way::Works(Instr::Rem),
        BinaryOp::Eq => Way::Works(Instr::Eq),
        BinaryOp::Ne => Way::Works(Instr::Ne),
        BinaryOp::Lt => Way::Works(Instr::Lt),
        BinaryOp::Le => Way::Works(Instr::Le),
        BinaryOp::Gt => Way::Works(Instr::Gt),
        BinaryOp::Ge => Way::Works(Instr::Ge),
    }
}

/// The instruction of an operator with one operand.
pub fn unary(op: UnaryOp) -> Instr
    ensures { result ≡ unary_code op }
{
    match op {
        UnaryOp::Neg => Instr::Neg,
        UnaryOp::Not => Instr::Not,
    }
}

/// The jump over a right operand, taken where the left one has the value that decides.
pub fn decides(by: bool, to: u32) -> Instr
    ensures { result ≡ deciding by to }
{
    if by {
        Instr::JumpIfTrue(to)
    } else {
        Instr::JumpIfFalse(to)
    }
}
