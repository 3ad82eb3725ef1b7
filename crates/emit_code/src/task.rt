//! What is left to do while the code of an expression is written.

use rev_code::Instr;
use rev_syntax::{Expr, Link};

/// A task. The last one comes first.
#[derive(Clone, Copy, Drop)]
pub enum Task<'a> {
    /// Write the code of an expression.
    Whole(&'a Expr),
    /// Write the code of arguments, from left to right.
    Arguments(&'a [Expr]),
    /// A left operand stands: write the code of the links behind it.
    Links(&'a [Link]),
    /// Write an instruction.
    Put(Instr),
    /// A right operand stands: write the instruction of its operator, and then the links behind.
    Operate {
        by: Instr,
        rest: &'a [Link],
    },
    /// The test of a `pick` stands: write its second and third part, with jumps.
    Choose {
        yes: &'a Expr,
        no: &'a Expr,
    },
    /// The second part of a `pick` stands, and at this place the jump over it, which has no target
    /// yet: write the third part.
    Otherwise {
        test: usize,
        no: &'a Expr,
    },
    /// A right operand stands, and at this place the jump over it, which has no target yet and is
    /// taken where the left operand has this value: write the value, and then the links behind.
    Decided {
        test: usize,
        by: bool,
        rest: &'a [Link],
    },
    /// At this place is a jump to here, which has no target yet.
    Land(usize),
}

/// The tasks that come of one.
#[derive(Clone, Copy, Drop)]
pub enum Steps<'a> {
    Nothing,
    One(Task<'a>),
    Two { first: Task<'a>, then: Task<'a> },
}
