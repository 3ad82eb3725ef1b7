//! Reads numbers, paths and values from their one spelling.

ghost use Rattle.std.specs.Prelude.{◌≡◌, ◌≢◌, ◌<◌, ◌^◌, ◌++◌, IfOk, IsTrue, MatchBool, MatchOption};
ghost use Rattle.std.specs.Fmt.{decimal, signed_decimal};
ghost use Rattle.rev_num.specs.Arith.{fits_i64};
ghost use Rattle.rev_num.specs.Text.{path_text};
ghost use Rattle.trace_diagram.specs.Lines.{FitsPath, FitsValue, value_text};
ghost use Rattle.trace_diagram.specs.Reading.{IsPlainValue, LacksPrefix, Reads, ReadsForks};

use crate::cut::cut;
use itoa::Buffer;
use rev_num::{Path, Value, read_decimal};
use std::alloc::{AllocError, Global};

/// What stands behind the prefix.
pub(crate) fn behind<'a>(bytes: &'a [u8], prefix: &[u8]) -> Option<&'a [u8]>
    ensures { MatchOption result (LacksPrefix bytes.now prefix.now)
        (λ rest. bytes.now ≡ prefix.now ++ rest.now) }
{
    bytes.strip_prefix(prefix)
}

/// Whether the bytes are these.
pub(crate) fn are(bytes: &[u8], word: &[u8]) -> bool
    ensures { MatchBool result (bytes.now ≡ word.now) (bytes.now ≢ word.now) }
{
    bytes == word
}

/// The number in 64 bits that is spelled so.
pub(crate) fn read_number(bytes: &[u8]) -> Option<u64>
    ensures { Reads (λ n. n < 2 ^ 64) decimal bytes.now result }
{
    let Ok(text) = str::from_utf8(bytes) else {
        return None;
    };
    let Ok(number) = text.parse::<u64>() else {
        return None;
    };
    let mut buffer = Buffer::new();
    let spelled = buffer.format(number).as_bytes();
    if are(spelled, bytes) {
        Some(number)
    } else {
        None
    }
}

/// The number in 32 bits that is spelled so.
pub(crate) fn read_small(bytes: &[u8]) -> Option<u32>
    ensures { Reads (λ n. n < 2 ^ 32) decimal bytes.now result }
{
    match read_number(bytes) {
        Some(number) if number < 1 << 32 => Some(number as u32),
        _ => None,
    }
}

/// The signed number in 64 bits that is spelled so.
fn read_int(bytes: &[u8]) -> Option<i64>
    ensures { Reads (λ n. IsTrue (fits_i64 n)) signed_decimal bytes.now result }
{
    let Some(int) = read_decimal(bytes) else {
        return None;
    };
    let mut buffer = Buffer::new();
    if are(buffer.format(int).as_bytes(), bytes) {
        Some(int)
    } else {
        None
    }
}

/// The numbers with dots between them, of which there is one at least.
fn read_forks(alloc: Global, bytes: &[u8]) -> Result<Option<Vec<u32>>, AllocError>
    ensures { IfOk result (ReadsForks bytes.now) }
{
    let mut forks = Vec::new(alloc);
    let mut rest = bytes;
    while let Some((front, more)) = cut(rest, b'.') {
        let Some(fork) = read_small(front) else {
            return Ok(None);
        };
        forks.push(fork)?;
        rest = more;
    }
    let Some(fork) = read_small(rest) else {
        return Ok(None);
    };
    forks.push(fork)?;
    Ok(Some(forks))
}

/// The path that is spelled so.
pub(crate) fn read_path(alloc: Global, bytes: &[u8]) -> Result<Option<Path>, AllocError>
    ensures { IfOk result (Reads FitsPath path_text bytes.now) }
{
    if are(bytes, b"main") {
        return Ok(Some(Path::root(alloc)));
    }
    match read_forks(alloc, bytes)? {
        Some(forks) => Ok(Some(Path::from_numbers(forks))),
        None => Ok(None),
    }
}

/// The value that is spelled so, if it has no `@` in front.
fn read_plain(bytes: &[u8]) -> Option<Value>
    ensures { Reads (λ x. FitsValue x × IsPlainValue x) value_text bytes.now result }
{
    if are(bytes, b"true") {
        return Some(Value::Bool(true));
    }
    if are(bytes, b"false") {
        return Some(Value::Bool(false));
    }
    if are(bytes, b"none") {
        return Some(Value::Rev(None));
    }
    match read_int(bytes) {
        Some(number) => Some(Value::Int(number)),
        None => None,
    }
}

/// The value that is spelled so.
pub(crate) fn read_value(alloc: Global, bytes: &[u8]) -> Result<Option<Value>, AllocError>
    ensures { IfOk result (Reads FitsValue value_text bytes.now) }
{
    if let Some(value) = read_plain(bytes) {
        return Ok(Some(value));
    }
    let Some(path) = behind(bytes, b"@") else {
        return Ok(None);
    };
    match read_path(alloc, path)? {
        Some(path) => Ok(Some(Value::Rev(Some(path)))),
        None => Ok(None),
    }
}
