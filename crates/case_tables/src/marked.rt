//! The marked lines of a row.

use crate::fault::CaseFault;
use std::alloc::Global;

/// What stands in a line behind a mark and a space, if the line begins with these; nothing, if the
/// line is the mark alone.
pub fn behind<'a>(line: &'a str, mark: &str) -> Option<&'a str> {
    let rest = line.strip_prefix(mark)?;
    if rest.is_empty() {
        return Some(rest);
    }
    rest.strip_prefix(" ")
}

/// What stands behind a mark in the first line of the row that has it.
pub fn field<'a>(row: &'a str, mark: &str) -> Option<&'a str> {
    for line in row.split('\n') {
        if let Some(text) = behind(line, mark) {
            return Some(text);
        }
    }
    None
}

/// Whether a line of the row has the mark.
pub fn has(row: &str, mark: &str) -> bool {
    field(row, mark).is_some()
}

/// Whether each line of the row has one of the marks.
pub fn has_only(row: &str, marks: &[&str]) -> bool {
    row.split('\n').all(|line| marks.iter().any(|mark| behind(line, mark).is_some()))
}

/// The number that a text is. A text is malformed that is none below 2^64.
pub fn number_of(text: &str) -> Result<u64, CaseFault> {
    text.parse::<u64>().map_err(|_| CaseFault::Malformed)
}

/// The numbers of a text, with spaces between them, each as in `number_of`.
pub fn numbers_of(alloc: Global, text: &str) -> Result<Vec<u64>, CaseFault> {
    let mut numbers = Vec::new(alloc);
    for word in text.split_whitespace() {
        numbers.push(number_of(word)?)?;
    }
    Ok(numbers)
}
