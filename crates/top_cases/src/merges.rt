//! Merges of programs that keep all rules, on three numbers.

use case_tables::{CaseFault, Pieces, field, typed_of};
use joined_locations::merged_value;
use rev_num::NumFault;
use std::alloc::Global;

/// What the last merge of the text gives for the joiner's value, the joinee's and the root's.
fn merged(
    alloc: Global,
    text: &[u8],
    main: i64,
    join: i64,
    root: i64,
) -> Option<Result<i64, NumFault>> {
    let typed = typed_of(alloc, text)?;
    let count = typed.expanded.merges.as_slice().len();
    if count == 0 || count > 1000 {
        return None;
    }
    let last = (count - 1) as u32;
    Some(merged_value(&typed, last, main, join, root))
}

/// What a text says that a merge gives: a number or a fault.
fn wanted_of(text: &str) -> Result<Result<i64, NumFault>, CaseFault> {
    match text {
        "overflow" => Ok(Err(NumFault::Overflow)),
        "zero divisor" => Ok(Err(NumFault::ZeroDivisor)),
        _ => Ok(Ok(signed_of(text)?)),
    }
}

/// The number with a sign that a text is.
fn signed_of(text: &str) -> Result<i64, CaseFault> {
    text.parse::<i64>().map_err(|_| CaseFault::Malformed)
}

/// The numbers of a text.
fn signed_numbers(alloc: Global, text: &str) -> Result<Vec<i64>, CaseFault> {
    let mut numbers = Vec::new(alloc);
    for word in text.split_whitespace() {
        numbers.push(signed_of(word)?)?;
    }
    Ok(numbers)
}

/// Whether the last merge of the row's text gives what the row says for its numbers.
pub fn merges(alloc: Global, pieces: &Pieces, row: &str, numbers: &str) -> Result<bool, CaseFault> {
    let text = pieces.body(alloc, row, "|")?;
    let wanted = wanted_of(field(row, "gives").unwrap_or(""))?;
    let numbers = signed_numbers(alloc, numbers)?;
    let [main, join, root] = numbers.as_slice() else {
        return Err(CaseFault::Malformed);
    };
    Ok(merged(alloc, text.as_slice(), *main, *join, *root) == Some(wanted))
}
