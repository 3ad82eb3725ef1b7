//! The program of a text, and what the checker of the affine rule finds in it.

use affine_check::{AffineFault, affine};
use case_tables::{MEGABYTE, typed_of};
use rev_parse::{SyntaxFault, parse};
use rev_syntax::{Form, Item, Node, Program, tokens};
use std::alloc::Global;

/// What the parser answers for a text. A text of more than a megabyte, and one in whose tokens
/// there is a fault, are told as want of memory.
pub fn parsed(alloc: Global, text: &[u8]) -> Result<Program, SyntaxFault> {
    if text.len() > MEGABYTE {
        return Err(SyntaxFault::OutOfMemory);
    }
    let Ok(tokens) = tokens(alloc, text) else {
        return Err(SyntaxFault::OutOfMemory);
    };
    parse(alloc, text, &tokens)
}

/// What the checker finds in a text, if that is a well-typed program.
pub fn found(alloc: Global, text: &[u8]) -> Option<Option<AffineFault>> {
    let typed = typed_of(alloc, text)?;
    Some(affine(alloc, &typed).err())
}

/// The places of the one value that a program prints: of its statement, with the line, of the
/// value, of the chain's first operand and of what this is in its parentheses.
pub fn places(program: &Program) -> Option<(u32, u32, u32, u32, u32)> {
    let [stmt] = program.main.stmts.as_slice() else {
        return None;
    };
    let Form::Print { items } = &stmt.form else {
        return None;
    };
    let [Item::Value(value)] = items.as_slice() else {
        return None;
    };
    let Node::Chain { first, .. } = &value.node else {
        return None;
    };
    let Node::Chain { first: inner, .. } = &first.node else {
        return None;
    };
    Some((stmt.at, stmt.line, value.at, first.at, inner.at))
}
