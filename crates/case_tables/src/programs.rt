//! The program of a text.

use merge_decl::expand_funs;
use rev_parse::parse;
use rev_syntax::tokens;
use rev_types::check;
use std::alloc::Global;
use typed_programs::Typed;

/// The longest text of a program, in bytes.
pub const MEGABYTE: usize = 1_048_576;

/// The program of a text, if that keeps all rules and is at most a megabyte. There is none, either,
/// where no memory is left.
pub fn typed_of(alloc: Global, text: &[u8]) -> Option<Typed> {
    if text.len() > MEGABYTE {
        return None;
    }
    let tokens = tokens(alloc, text).ok()?;
    let program = parse(alloc, text, tokens.as_slice()).ok()?;
    let expanded = expand_funs(alloc, program).ok()?;
    check(alloc, expanded).ok()
}
