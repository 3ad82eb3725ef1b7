//! Tests whether bytes are a name.
ghost use Rattle.std.specs.Prelude.{◌≡◌};
ghost use Rattle.std.specs.List.{list_all};
ghost use Rattle.rev_syntax.specs.Bytes as bytes;
ghost use Rattle.rev_syntax.specs.Words as spec;

use crate::scan::{is_letter, is_name_byte};
use crate::token::WORDS;

#[tactic(auto, using(rev_num::proofs::Lists::all_more, rev_num::proofs::Lists::all_none))]
fn are_name_bytes(text: &[u8]) -> bool
    ensures { result ≡ list_all bytes.is_name_byte text.now }
{
    for b in text {
        if !is_name_byte(*b) {
            return false;
        }
    }
    true
}

fn is_word(text: &[u8]) -> bool
    ensures { result ≡ bytes.is_word text.now }
{
    match text {
        [] => false,
        [first, rest @ ..] => is_letter(*first) && are_name_bytes(rest),
    }
}

fn is_reserved(text: &[u8]) -> bool
    ensures { result ≡ spec.is_reserved text.now }
{
    WORDS.iter().copied().any(|word| word.spelling() == text)
}

/// Whether the bytes are a name: a letter and then letters and digits, but no reserved word.
pub fn is_name(bytes: &[u8]) -> bool
    ensures { result ≡ spec.is_name bytes.now }
{
    is_word(bytes) && !is_reserved(bytes)
}
