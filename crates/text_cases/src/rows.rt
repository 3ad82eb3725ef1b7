//! The rows of the table.

use crate::answers::answer_of;
use case_tables::{CaseFault, Pieces, Tally, behind, field, has, number_of};
use std::alloc::Global;
use std::io;

/// The marks that a line may have.
pub const MARKS: &[&str] = &["#", ":", "let", "$", "|", "first", ">", "?", "@", "+"];

/// Whether the call finds this fault at the mark of a text.
fn has_fault(
    alloc: Global,
    pieces: &Pieces,
    call: &str,
    marked: &str,
    fault: &str,
) -> Result<bool, CaseFault> {
    let (text, before) = pieces.marked(alloc, marked)?;
    let want = format!(in alloc; "{fault} at {before}\n")?;
    let answer = answer_of(alloc, call, text.as_slice())?;
    Ok(answer.as_slice() == want.as_bytes())
}

/// Whether the call finds no fault in a text.
fn has_none(alloc: Global, pieces: &Pieces, call: &str, text: &str) -> Result<bool, CaseFault> {
    let text = pieces.bytes_of(alloc, text)?;
    let answer = answer_of(alloc, call, text.as_slice())?;
    Ok(answer.as_slice() == b"ok\n".as_slice())
}

/// The text of a row.
fn text_of(alloc: Global, pieces: &Pieces, row: &str) -> Result<Vec<u8>, CaseFault> {
    let mut text = pieces.body(alloc, row, "|")?;
    if let Some(length) = field(row, "first") {
        let length = usize::try_from(number_of(length)?).unwrap_or(usize::MAX);
        text.truncate(length);
    }
    Ok(text)
}

/// Whether the call answers what stands behind `>`.
fn is_answered(alloc: Global, pieces: &Pieces, call: &str, row: &str) -> Result<bool, CaseFault> {
    let text = text_of(alloc, pieces, row)?;
    let want = pieces.lines(alloc, row, ">")?;
    let answer = answer_of(alloc, call, text.as_slice())?;
    Ok(answer.as_slice() == want.as_slice())
}

/// Plays the texts of a row, each behind its mark, and the text of the row, if it wants an answer.
fn play_texts<R: AllocGlobal + Print>(
    rt: &R,
    pieces: &Pieces,
    tally: &mut Tally,
    row: &str,
    call: &str,
) -> io::Result<()> {
    let alloc = rt.alloc();
    let fault = field(row, "?").unwrap_or("");
    for line in row.split('\n') {
        if let Some(marked) = behind(line, "@") {
            tally.count(rt, line, has_fault(alloc, pieces, call, marked, fault))?;
        }
        if let Some(text) = behind(line, "+") {
            tally.count(rt, line, has_none(alloc, pieces, call, text))?;
        }
    }
    if has(row, "@") || has(row, "+") {
        return Ok(());
    }
    tally.count(rt, row, is_answered(alloc, pieces, call, row))
}

/// Plays a row by the call that it names. Without a call it defines pieces.
pub fn play<R: AllocGlobal + Print>(
    rt: &R,
    pieces: &mut Pieces,
    tally: &mut Tally,
    row: &str,
) -> io::Result<()> {
    if let Err(fault) = pieces.define(rt.alloc(), row) {
        return tally.count(rt, row, Err(fault));
    }
    match field(row, "$") {
        Some(call) => play_texts(rt, pieces, tally, row, call),
        None => Ok(()),
    }
}
