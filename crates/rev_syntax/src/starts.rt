//! The reserved words and the signs by their first byte.
ghost use Rattle.std.specs.Prelude.{◌≡◌, ◌∷◌, [], ℕ, List, Some, if◌then◌else◌, nat_eq};
ghost use Rattle.std.specs.List.{find, starts_with};
ghost use Rattle.rev_syntax.specs.Words.{has_spelling};
ghost use Rattle.rev_syntax.specs.Scan as spec;

use crate::token::Fixed;

/// The reserved words that begin with this byte.
pub fn words_with(first: u8) -> &'static [Fixed]
    ensures { (bs : List ℕ) →
        find (has_spelling (first ∷ bs)) result.now ≡ spec.reserved_word (first ∷ bs) }
{
    match first {
        b'a' => &[Fixed::Assert],
        b'b' => &[Fixed::By, Fixed::KindBool],
        b'c' => &[Fixed::Cumulative, Fixed::Call],
        b'e' => &[Fixed::Else],
        b'f' => &[Fixed::Fun, Fixed::False],
        b'i' => &[Fixed::KindInt, Fixed::If, Fixed::Input, Fixed::Inputs],
        b'l' => &[Fixed::Let],
        b'm' => &[Fixed::Merge, Fixed::Main],
        b'n' => &[Fixed::NoRev],
        b'p' => &[Fixed::Proc, Fixed::Print, Fixed::Pick],
        b'r' => &[Fixed::KindRev, Fixed::Return, Fixed::Fork, Fixed::Join],
        b't' => &[Fixed::TryJoin, Fixed::True],
        b'v' => &[Fixed::Versioned],
        b'w' => &[Fixed::While],
        _ => &[],
    }
}

/// The first of these that is spelled so.
pub fn spelled(words: &[Fixed], text: &[u8]) -> Option<Fixed>
    ensures { result ≡ find (has_spelling text.now) words.now }
{
    words.iter().copied().find(|word| word.spelling() == text)
}

/// The longer sign, where its second byte is next; else the other, if there is one.
fn longer(rest: &[u8], second: u8, sign: Fixed, other: Option<Fixed>) -> Option<Fixed>
    ensures { result
        ≡ (if starts_with nat_eq rest.now (second ∷ []) then Some sign else other) }
{
    if rest.starts_with(&[second]) {
        Some(sign)
    } else {
        other
    }
}

/// The longest sign that this byte begins, with these bytes behind it.
pub fn sign_from(first: u8, rest: &[u8]) -> Option<Fixed>
    ensures { result ≡ spec.first_sign (first ∷ rest.now) }
{
    match first {
        b'=' => longer(rest, b'=', Fixed::Equal, Some(Fixed::Assign)),
        b'!' => longer(rest, b'=', Fixed::NotEqual, Some(Fixed::Bang)),
        b'<' => longer(rest, b'=', Fixed::LessEqual, Some(Fixed::Less)),
        b'>' => longer(rest, b'=', Fixed::GreaterEqual, Some(Fixed::Greater)),
        b'&' => longer(rest, b'&', Fixed::And, None),
        b'|' => longer(rest, b'|', Fixed::Or, None),
        b'(' => Some(Fixed::OpenParen),
        b')' => Some(Fixed::CloseParen),
        b'{' => Some(Fixed::OpenBrace),
        b'}' => Some(Fixed::CloseBrace),
        b'[' => Some(Fixed::OpenBracket),
        b']' => Some(Fixed::CloseBracket),
        b',' => Some(Fixed::Comma),
        b';' => Some(Fixed::Semicolon),
        b':' => Some(Fixed::Colon),
        b'+' => Some(Fixed::Plus),
        b'-' => Some(Fixed::Minus),
        b'*' => Some(Fixed::Star),
        b'/' => Some(Fixed::Slash),
        b'%' => Some(Fixed::Percent),
        _ => None,
    }
}
