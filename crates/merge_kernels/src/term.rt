//! Definitions of merges, over the joiner's, the joinee's and the root's number.

use rev_syntax::BinaryOp;

/// An expression over the three numbers of a merge, which applies no fun.
#[cycle(term)]
#[derive(Drop)]
pub enum Term {
    /// The joiner's number.
    Main,
    /// The joinee's number.
    Join,
    /// The number that was there at the fork.
    Root,
    Int(i64),
    Bool(bool),
    Neg(Box<Term>),
    Not(Box<Term>),
    /// The second or the third part, by the first.
    Pick {
        test: Box<Term>,
        yes: Box<Term>,
        no: Box<Term>,
    },
    /// Operators that bind alike, worked from left to right.
    Chain {
        first: Box<Term>,
        rest: Vec<TermLink>,
    },
}

/// An operator and its right operand.
#[cycle(term)]
#[derive(Drop)]
pub struct TermLink {
    pub op: BinaryOp,
    pub part: Term,
}

/// The definition of a merge.
#[derive(Drop)]
pub struct MergeDef {
    pub body: Term,
}
