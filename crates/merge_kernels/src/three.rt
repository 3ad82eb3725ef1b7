//! Three merges: the sum of what both did, the greatest and the least.

ghost use Rattle.std.specs.Prelude.{◌≡◌, IfOk};
ghost use Rattle.merge_kernels.specs.Terms.{answer_of, definition, term};
ghost use Rattle.merge_kernels.specs.Three.{chosen_by, compared_by, greatest_expression};
ghost use Rattle.merge_kernels.specs.Three.{least_expression, sum_expression};

use crate::term::{MergeDef, Term, TermLink};
use rev_num::{NumFault, add, sub};
use rev_syntax::BinaryOp;
use std::alloc::{AllocError, Global};

/// `m + j - r`.
pub fn sum_def(alloc: Global) -> Result<MergeDef, AllocError>
    ensures { IfOk result (λ d. definition d ≡ sum_expression) }
{
    let first = Box::new(alloc, Term::Main)?;
    let mut rest = Vec::new(alloc);
    rest.push(TermLink {
        op: BinaryOp::Add,
        part: Term::Join,
    })?;
    rest.push(TermLink {
        op: BinaryOp::Sub,
        part: Term::Root,
    })?;
    Ok(MergeDef {
        body: Term::Chain { first, rest },
    })
}

/// `j op m`.
fn compared(alloc: Global, op: BinaryOp) -> Result<Term, AllocError>
    ensures { IfOk result (λ t. term t ≡ compared_by op) }
{
    let first = Box::new(alloc, Term::Join)?;
    let mut rest = Vec::new(alloc);
    rest.push(TermLink {
        op,
        part: Term::Main,
    })?;
    Ok(Term::Chain { first, rest })
}

/// `pick(j op m, j, m)`.
fn chosen(alloc: Global, op: BinaryOp) -> Result<MergeDef, AllocError>
    ensures { IfOk result (λ d. definition d ≡ chosen_by op) }
{
    let test = Box::new(alloc, compared(alloc, op)?)?;
    let yes = Box::new(alloc, Term::Join)?;
    let no = Box::new(alloc, Term::Main)?;
    Ok(MergeDef {
        body: Term::Pick { test, yes, no },
    })
}

/// `pick(j > m, j, m)`.
pub fn greatest_def(alloc: Global) -> Result<MergeDef, AllocError>
    ensures { IfOk result (λ d. definition d ≡ greatest_expression) }
{
    chosen(alloc, BinaryOp::Gt)
}

/// `pick(j < m, j, m)`.
pub fn least_def(alloc: Global) -> Result<MergeDef, AllocError>
    ensures { IfOk result (λ d. definition d ≡ least_expression) }
{
    chosen(alloc, BinaryOp::Lt)
}

/// The value of `m + j - r`.
pub fn sum(main: i64, join: i64, root: i64) -> Result<i64, NumFault>
    ensures { result ≡ answer_of sum_expression main join root }
{
    match add(main, join) {
        Ok(both) => sub(both, root),
        Err(fault) => Err(fault),
    }
}

/// The value of `pick(j > m, j, m)`.
pub fn greatest(main: i64, join: i64, _root: i64) -> Result<i64, NumFault>
    ensures { result ≡ answer_of greatest_expression main join _root }
{
    Ok(if join > main { join } else { main })
}

/// The value of `pick(j < m, j, m)`.
pub fn least(main: i64, join: i64, _root: i64) -> Result<i64, NumFault>
    ensures { result ≡ answer_of least_expression main join _root }
{
    Ok(if join < main { join } else { main })
}
