//! The names of handles in expressions: a handle is copied in a plain right side and in a part of a
//! `pick`.

ghost use Rattle.std.specs.Prelude.{◌≡◌, true, false, None, map, option_map};
ghost use Rattle.rev_syntax.specs.View.{expression, expression_form, expressions, links};
ghost use Rattle.rev_syntax.specs.View.{placed_name, print_item, right_side};
ghost use Rattle.affine_check.specs.Walk as rule;

use crate::fault::{AffineFault, first};
use rev_kinds::Locals;
use rev_num::{ValueKind, same_kind};
use rev_syntax::{Expr, Item, Link, Name, Node, Rhs};

/// Whether a name means a handle, where it means this as a local.
pub fn is_handle(local: Option<Option<ValueKind>>) -> bool
    ensures { result ≡ rule.is_handle local }
{
    match local {
        None => false,
        Some(None) => false,
        Some(Some(kind)) => same_kind(kind, ValueKind::Rev),
    }
}

fn name(locals: &Locals, copies: bool, name: &Name) -> Option<AffineFault>
    ensures { result ≡ rule.copied_name locals.now copies (placed_name name.now) }
{
    if copies && is_handle(locals.find(&name.text)) {
        Some(AffineFault::Copied { at: name.at })
    } else {
        None
    }
}

/// The first handle that an expression copies: any that it names, where the expression itself is
/// copied, and else those that it names in a part of a `pick`.
#[cycle(copies)]
pub fn copied(locals: &Locals, copies: bool, e: &Expr) -> Option<AffineFault>
    ensures { result ≡ rule.copied locals.now copies (expression e.now) }
{
    copied_node(locals, copies, &e.node)
}

#[cycle(copies)]
fn copied_node(locals: &Locals, copies: bool, node: &Node) -> Option<AffineFault>
    ensures { result ≡ rule.copied_form locals.now copies (expression_form node.now) }
{
    match node {
        Node::Int(_) => None,
        Node::Bool(_) => None,
        Node::NoRev => None,
        Node::Var(w) => name(locals, copies, w),
        Node::Cell { index, .. } => copied(locals, copies, index),
        Node::Apply { args, .. } => copied_args(locals, copies, args),
        Node::Input { index, .. } => copied(locals, copies, index),
        Node::Inputs { .. } => None,
        Node::Pick { test, yes, no } => first(
            copied(locals, true, test),
            first(copied(locals, true, yes), copied(locals, true, no)),
        ),
        Node::Unary { part, .. } => copied(locals, copies, part),
        Node::Chain { first: head, rest } => {
            copied_links(locals, copies, copied(locals, copies, head), rest)
        }
    }
}

/// The first handle that arguments copy.
#[cycle(copies)]
pub fn copied_args(locals: &Locals, copies: bool, args: &[Expr]) -> Option<AffineFault>
    ensures { result ≡ rule.copied_args locals.now copies None (expressions args.now) }
{
    let mut found = None;
    for arg in args {
        found = first(found, copied(locals, copies, arg));
    }
    found
}

/// Those of the links of a chain, after this one.
#[cycle(copies)]
fn copied_links(
    locals: &Locals,
    copies: bool,
    before: Option<AffineFault>,
    rest: &[Link],
) -> Option<AffineFault>
    ensures { result ≡ rule.copied_links locals.now copies before (links rest.now) }
{
    let mut found = before;
    for link in rest {
        found = first(found, copied(locals, copies, &link.part));
    }
    found
}

/// The first handle that a right side copies.
pub fn copied_right(locals: &Locals, rhs: &Rhs) -> Option<AffineFault>
    ensures { result ≡ rule.copied_right locals.now (right_side rhs.now) }
{
    match rhs {
        Rhs::Plain(e) => copied(locals, true, e),
        Rhs::Call { args, .. } => copied_args(locals, false, args),
        Rhs::Fork { args, .. } => copied_args(locals, false, args),
        Rhs::Try { handle, .. } => copied(locals, false, handle),
    }
}

/// The first handle that the value of a `return` copies.
pub fn copied_value(locals: &Locals, value: &Option<Expr>) -> Option<AffineFault>
    ensures { result ≡ rule.copied_value locals.now (option_map expression value.now) }
{
    match value {
        None => None,
        Some(e) => copied(locals, false, e),
    }
}

fn copied_item(locals: &Locals, item: &Item) -> Option<AffineFault>
    ensures { result ≡ rule.copied_item locals.now (print_item item.now) }
{
    match item {
        Item::Text { .. } => None,
        Item::Value(e) => copied(locals, false, e),
    }
}

/// The first handle that the items of a `print` copy.
pub fn copied_items(locals: &Locals, items: &[Item]) -> Option<AffineFault>
    ensures { result ≡ rule.copied_items locals.now None (map print_item items.now) }
{
    let mut found = None;
    for item in items {
        found = first(found, copied_item(locals, item));
    }
    found
}
