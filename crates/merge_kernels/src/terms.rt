//! The term of a merge's expression.

ghost use Rattle.std.specs.Prelude.{◌≡◌, ◌∷◌, [], ◌++◌, IfOk, map, option_map};
ghost use Rattle.rev_syntax.specs.Trees.{chain, pick, unary};
ghost use Rattle.rev_syntax.specs.View.{expression, expression_form, links};
ghost use Rattle.merge_kernels.specs.Closing.{parameter_of, renamed, renamed_form, renamed_links};
ghost use Rattle.merge_kernels.specs.Named.{names_of};
ghost use Rattle.merge_kernels.specs.Terms.{bare, term, term_link, term_links};

use crate::parameters::Parameters;
use crate::term::{Term, TermLink};
use rev_syntax::{BinaryOp, Expr, Link, Name, Node, UnaryOp};
use std::alloc::{AllocError, Global};

/// The parameter that a name means.
fn parameter(names: Parameters, name: &Name) -> Option<Term>
    ensures { option_map term result ≡ parameter_of (names_of names.entry) name.now.text.items }
{
    let text = name.text.as_slice();
    if text == names.root {
        Some(Term::Root)
    } else if text == names.join {
        Some(Term::Join)
    } else if text == names.main {
        Some(Term::Main)
    } else {
        None
    }
}

/// A part behind a sign.
fn signed(alloc: Global, op: UnaryOp, part: Term) -> Result<Term, AllocError>
    ensures { IfOk result (λ t. term t ≡ bare (unary op (term part))) }
{
    let part = Box::new(alloc, part)?;
    match op {
        UnaryOp::Neg => Ok(Term::Neg(part)),
        UnaryOp::Not => Ok(Term::Not(part)),
    }
}

fn picked(alloc: Global, test: Term, yes: Term, no: Term) -> Result<Term, AllocError>
    ensures { IfOk result (λ t. term t ≡ bare (pick (term test) (term yes) (term no))) }
{
    let test = Box::new(alloc, test)?;
    let yes = Box::new(alloc, yes)?;
    let no = Box::new(alloc, no)?;
    Ok(Term::Pick { test, yes, no })
}

fn chained(alloc: Global, first: Term, rest: Vec<TermLink>) -> Result<Term, AllocError>
    ensures { IfOk result (λ t. term t ≡ bare (chain (term first) (term_links rest.items))) }
{
    let first = Box::new(alloc, first)?;
    Ok(Term::Chain { first, rest })
}

fn push_link(list: &mut Vec<TermLink>, op: BinaryOp, part: Term) -> Result<(), AllocError>
    ensures { IfOk result (λ _. map term_link list.new.items
        ≡ map term_link list.old.items ++ (op, term part) ∷ []) }
{
    list.push(TermLink { op, part })?;
    Ok(())
}

/// The term of an expression, where it has one.
#[cycle(closing)]
pub fn close(alloc: Global, names: Parameters, e: &Expr) -> Result<Option<Term>, AllocError>
    ensures { IfOk result
        (λ t. option_map term t ≡ renamed (names_of names.entry) (expression e.now)) }
{
    close_node(alloc, names, &e.node)
}

#[cycle(closing)]
fn close_node(alloc: Global, names: Parameters, node: &Node) -> Result<Option<Term>, AllocError>
    ensures { IfOk result
        (λ t. option_map term t ≡ renamed_form (names_of names.entry) (expression_form node.now)) }
{
    match node {
        Node::Int(n) => Ok(Some(Term::Int(*n))),
        Node::Bool(b) => Ok(Some(Term::Bool(*b))),
        Node::Var(name) => Ok(parameter(names, name)),
        Node::Pick { test, yes, no } => {
            let Some(test) = close(alloc, names, test)? else {
                return Ok(None);
            };
            let Some(yes) = close(alloc, names, yes)? else {
                return Ok(None);
            };
            let Some(no) = close(alloc, names, no)? else {
                return Ok(None);
            };
            Ok(Some(picked(alloc, test, yes, no)?))
        }
        Node::Unary { op, part } => {
            let Some(part) = close(alloc, names, part)? else {
                return Ok(None);
            };
            Ok(Some(signed(alloc, *op, part)?))
        }
        Node::Chain { first, rest } => {
            let Some(first) = close(alloc, names, first)? else {
                return Ok(None);
            };
            let Some(rest) = close_links(alloc, names, rest)? else {
                return Ok(None);
            };
            Ok(Some(chained(alloc, first, rest)?))
        }
        Node::NoRev => Ok(None),
        Node::Cell { .. } => Ok(None),
        Node::Apply { .. } => Ok(None),
        Node::Input { .. } => Ok(None),
        Node::Inputs { .. } => Ok(None),
    }
}

#[cycle(closing)]
fn close_links(
    alloc: Global,
    names: Parameters,
    rest: &[Link],
) -> Result<Option<Vec<TermLink>>, AllocError>
    ensures { IfOk result
        (λ ls. option_map (λ v. term_links v.items) ls
        ≡ renamed_links (names_of names.entry) (links rest.now)) }
{
    let mut list = Vec::new(alloc);
    for link in rest {
        let Some(part) = close(alloc, names, &link.part)? else {
            return Ok(None);
        };
        push_link(&mut list, link.op, part)?;
    }
    Ok(Some(list))
}
