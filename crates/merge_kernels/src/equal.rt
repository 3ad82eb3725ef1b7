//! Whether two definitions are equal.

ghost use Rattle.std.specs.Prelude.{◌≡◌, ◌&&◌, nat_eq, true};
ghost use Rattle.merge_kernels.specs.Equal.{equal, equal_links, op_number};
ghost use Rattle.merge_kernels.specs.Terms.{definition, term, term_links};

use crate::term::{MergeDef, Term, TermLink};
use rev_syntax::BinaryOp;

/// An operator as a number.
fn op_number(op: BinaryOp) -> u8
    ensures { result ≡ op_number op }
{
    match op {
        BinaryOp::Add => 0,
        BinaryOp::Sub => 1,
        BinaryOp::Mul => 2,
        BinaryOp::Div => 3,
        BinaryOp::Rem => 4,
        BinaryOp::Eq => 5,
        BinaryOp::Ne => 6,
        BinaryOp::Lt => 7,
        BinaryOp::Le => 8,
        BinaryOp::Gt => 9,
        BinaryOp::Ge => 10,
        BinaryOp::And => 11,
        BinaryOp::Or => 12,
    }
}

#[cycle(same)]
fn same_term(a: &Term, b: &Term) -> bool
    ensures { result ≡ equal (term a.now) (term b.now) }
{
    match a {
        Term::Main => match b {
            Term::Main => true,
            _ => false,
        },
        Term::Join => match b {
            Term::Join => true,
            _ => false,
        },
        Term::Root => match b {
            Term::Root => true,
            _ => false,
        },
        Term::Int(m) => match b {
            Term::Int(n) => *m == *n,
            _ => false,
        },
        Term::Bool(d) => match b {
            Term::Bool(e) => *d == *e,
            _ => false,
        },
        Term::Neg(x) => match b {
            Term::Neg(y) => same_term(x, y),
            _ => false,
        },
        Term::Not(x) => match b {
            Term::Not(y) => same_term(x, y),
            _ => false,
        },
        Term::Pick { test, yes, no } => match b {
            Term::Pick {
                test: test_b,
                yes: yes_b,
                no: no_b,
            } => same_term(test, test_b) && (same_term(yes, yes_b) && same_term(no, no_b)),
            _ => false,
        },
        Term::Chain { first, rest } => match b {
            Term::Chain {
                first: first_b,
                rest: rest_b,
            } => same_term(first, first_b) && same_links(rest, rest_b),
            _ => false,
        },
    }
}

#[cycle(same)]
fn same_link(a: &TermLink, b: &TermLink) -> bool
    ensures { result ≡ (nat_eq (op_number a.now.op) (op_number b.now.op)
        && equal (term a.now.part) (term b.now.part)) }
{
    op_number(a.op) == op_number(b.op) && same_term(&a.part, &b.part)
}

#[cycle(same)]
fn same_links(a: &[TermLink], b: &[TermLink]) -> bool
    ensures { result ≡ equal_links (term_links a.now) (term_links b.now) }
{
    if a.len() != b.len() {
        return false;
    }
    for (at, x) in a.iter().enumerate() {
        if !same_link(x, &b[at]) {
            return false;
        }
    }
    true
}

/// Whether two definitions are equal.
pub fn same(a: &MergeDef, b: &MergeDef) -> bool
    ensures equal { result ≡ true → definition a.now ≡ definition b.now }
    ensures all { definition a.now ≡ definition b.now → result ≡ true }
{
    same_term(&a.body, &b.body)
}
