//! What a text begins with.
ghost use Rattle.std.specs.Prelude.{◌≡◌, ◌<◌, ◌≤◌, ◌^◌, length};
ghost use Rattle.std.specs.List.{prefix_len};
ghost use Rattle.rev_syntax.specs.Bytes as bytes;
ghost use Rattle.rev_syntax.specs.Tokens.{begins_with_letter};
ghost use Rattle.rev_syntax.specs.Scan as spec;

use crate::starts::{sign_from, spelled, words_with};
use crate::token::{Fixed, PieceKind, TokenKind};
use rev_num::read_decimal;
use std::alloc::AllocFailed;

/// The first place of a text that cannot be cut into tokens, or want of memory, which says nothing
/// of the text.
#[derive(Clone, Copy)]
pub enum LexFault {
    /// A byte that begins no token.
    BadByte { at: u32 },
    /// The first digit of a number that is too large or that a letter follows.
    BadNumber { at: u32 },
    /// The opening quote of a text that is not closed.
    OpenText { at: u32 },
    OutOfMemory,
}

impl<T: Drop> From<AllocFailed<T>> for LexFault {
    ghost use Rattle.std.specs.Prelude.{◌≡◌};
    ghost use Rattle.rev_syntax.specs.declared.scan.LexFault.{LexFault};

    ghost from_gives = { λ _ f. f ≡ LexFault.OutOfMemory };

    fn from(_: AllocFailed<T>) -> LexFault {
        LexFault::OutOfMemory
    }
}

/// The piece that a text begins with: what it is, and how many bytes it has.
#[derive(Clone, Copy)]
pub struct Cut {
    pub kind: PieceKind,
    pub length: usize,
}

/// Whether it is a digit, `0` to `9`.
pub fn is_digit(byte: u8) -> bool
    ensures { result ≡ bytes.is_digit byte }
{
    byte.is_ascii_digit()
}

/// Whether a name may begin with it: a letter of ASCII, or `_`.
pub fn is_letter(byte: u8) -> bool
    ensures { result ≡ bytes.is_letter byte }
{
    byte.is_ascii_alphabetic() || byte == b'_'
}

/// Whether it may stand in a name: a letter, a digit, or `_`.
pub fn is_name_byte(byte: u8) -> bool
    ensures { result ≡ bytes.is_name_byte byte }
{
    is_letter(byte) || is_digit(byte)
}

fn is_blank(byte: u8) -> bool
    ensures { result ≡ bytes.is_blank byte }
{
    matches!(byte, b'\t' | b'\n' | b'\r' | b' ')
}

fn is_text_byte(byte: u8) -> bool
    ensures { result ≡ bytes.is_text_byte byte }
{
    matches!(byte, b' '..=b'~') && byte != b'"'
}

fn digits(text: &[u8]) -> usize
    ensures bound { result ≤ length text.now }
    ensures count { result ≡ prefix_len bytes.is_digit text.now }
{
    text.iter().take_while(|b| is_digit(**b)).count()
}

fn name_bytes(text: &[u8]) -> usize
    ensures bound { result ≤ length text.now }
    ensures count { result ≡ prefix_len bytes.is_name_byte text.now }
{
    text.iter().take_while(|b| is_name_byte(**b)).count()
}

fn text_bytes(text: &[u8]) -> usize
    ensures bound { result ≤ length text.now }
    ensures count { result ≡ prefix_len bytes.is_text_byte text.now }
{
    text.iter().take_while(|b| is_text_byte(**b)).count()
}

fn line_bytes(text: &[u8]) -> usize
    ensures bound { result ≤ length text.now }
    ensures count { result ≡ prefix_len bytes.is_no_line_feed text.now }
{
    text.iter().take_while(|b| **b != b'\n').count()
}

fn reserved_word(text: &[u8]) -> Option<Fixed>
    ensures { result ≡ spec.reserved_word text.now }
{
    match text {
        [] => None,
        [first, ..] => spelled(words_with(*first), text),
    }
}

fn word_kind(text: &[u8]) -> TokenKind
    ensures { result ≡ spec.word_kind text.now }
{
    match reserved_word(text) {
        Some(word) => TokenKind::Fixed(word),
        None => TokenKind::Name,
    }
}

fn word(text: &[u8]) -> Cut
    ensures { result ≡ spec.word_cut text.now }
{
    let length = name_bytes(text);
    let kind = word_kind(&text[..length]);
    Cut {
        kind: PieceKind::Token(kind),
        length,
    }
}

fn first_sign(text: &[u8]) -> Option<Fixed>
    ensures { result ≡ spec.first_sign text.now }
{
    match text {
        [] => None,
        [first, rest @ ..] => sign_from(*first, rest),
    }
}

fn begins_with_letter(text: &[u8]) -> bool
    ensures { result ≡ begins_with_letter text.now }
{
    match text {
        [first, ..] => is_letter(*first),
        [] => false,
    }
}

fn begins_with_quote(text: &[u8]) -> bool
    ensures { result ≡ spec.begins_with_quote text.now }
{
    match text {
        [first, ..] => *first == b'"',
        [] => false,
    }
}

fn number(at: u32, text: &[u8]) -> Result<Cut, LexFault>
    ensures { result ≡ spec.number_scan at text.now }
{
    let length = digits(text);
    match read_decimal(&text[..length]) {
        Some(value) if !begins_with_letter(&text[length..]) => Ok(Cut {
            kind: PieceKind::Token(TokenKind::Int(value)),
            length,
        }),
        _ => Err(LexFault::BadNumber { at }),
    }
}

/// The text in quotes, after the first quote.
fn quoted(at: u32, text: &[u8]) -> Result<Cut, LexFault>
    requires { length text.now < 2 ^ 32 }
    ensures { result ≡ spec.text_scan at text.now }
{
    let length = text_bytes(text);
    if begins_with_quote(&text[length..]) {
        Ok(Cut {
            kind: PieceKind::Token(TokenKind::Text),
            length: length + 2,
        })
    } else {
        Err(LexFault::OpenText { at })
    }
}

fn sign(at: u32, text: &[u8]) -> Result<Cut, LexFault>
    ensures { result ≡ spec.sign_cut at (spec.first_sign text.now) }
{
    match first_sign(text) {
        Some(sign) => Ok(Cut {
            kind: PieceKind::Token(TokenKind::Fixed(sign)),
            length: sign.spelling().len(),
        }),
        None => Err(LexFault::BadByte { at }),
    }
}

fn scan(at: u32, text: &[u8]) -> Result<Cut, LexFault>
    requires { length text.now < 2 ^ 32 }
    ensures { result ≡ spec.scan at text.now }
{
    let [first, rest @ ..] = text else {
        return Err(LexFault::BadByte { at });
    };
    if is_blank(*first) {
        Ok(Cut {
            kind: PieceKind::WhiteSpace,
            length: 1,
        })
    } else if is_letter(*first) {
        Ok(word(text))
    } else if is_digit(*first) {
        number(at, text)
    } else if *first == b'"' {
        quoted(at, rest)
    } else if text.starts_with(b"//") {
        Ok(Cut {
            kind: PieceKind::Comment,
            length: line_bytes(text),
        })
    } else {
        sign(at, text)
    }
}

/// The piece that the text at this offset begins with, the longest that fits.
pub fn next_piece(at: u32, text: &[u8]) -> Result<Cut, LexFault>
    requires some { 0 < length text.now }
    requires small { length text.now < 2 ^ 32 }
    ensures { spec.Answers at text.now result }
{
    scan(at, text)
}
