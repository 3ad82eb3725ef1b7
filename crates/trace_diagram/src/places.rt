//! Tests the names of locations.

ghost use Rattle.std.specs.Prelude.{◌≡◌, MatchBool};
ghost use Rattle.std.specs.List.{list_all};
ghost use Rattle.rev_syntax.specs.Bytes as names;
ghost use Rattle.trace_diagram.specs.Places as spec;
ghost use Rattle.trace_diagram.specs.Places.{HasCell, IsPlace};

use crate::cut::cut;
use rev_syntax::{is_digit, is_name};

#[tactic(auto, using(rev_num::proofs::Lists::all_more, rev_num::proofs::Lists::all_none))]
fn are_digits(bytes: &[u8]) -> bool
    ensures { result ≡ list_all names.is_digit bytes.now }
{
    for b in bytes {
        if !is_digit(*b) {
            return false;
        }
    }
    true
}

/// Whether the digits are a number without a needless zero.
fn is_plain(bytes: &[u8]) -> bool
    ensures { result ≡ spec.is_plain bytes.now }
{
    match bytes {
        [] => false,
        [d, rest @ ..] => are_digits(bytes) && (*d != b'0' || rest.is_empty()),
    }
}

/// Whether the bytes are a name and a number in brackets, behind the first of which stands `cell`.
fn is_cell(array: &[u8], cell: &[u8]) -> bool
    ensures { MatchBool result (HasCell array.now cell.now) (HasCell array.now cell.now → ⊥) }
{
    let Some((index, rest)) = cut(cell, b']') else {
        return false;
    };
    rest.is_empty() && (is_name(array) && is_plain(index))
}

/// Whether the bytes name a location.
pub(crate) fn is_place(bytes: &[u8]) -> bool
    ensures { MatchBool result (IsPlace bytes.now) (IsPlace bytes.now → ⊥) }
{
    match cut(bytes, b'[') {
        Some((array, cell)) => is_cell(array, cell),
        None => is_name(bytes),
    }
}
