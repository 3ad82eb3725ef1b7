//! What the calls answer, as texts.

use crate::programs::{found, parsed, places};
use affine_check::AffineFault;
use case_tables::{CaseFault, MEGABYTE, number_of};
use rev_parse::SyntaxFault;
use rev_syntax::{LexFault, Token, line_column, tokens};
use std::alloc::{AllocError, Global};
use trace_diagram::{TraceFault, print_trace, read_trace};

/// What went wrong, and where.
fn fault_text(alloc: Global, fault: &str, at: u64) -> Result<String, AllocError> {
    format!(in alloc; "{fault} at {at}\n")
}

/// A line for each token: its kind, its start and its end.
fn lines_of(alloc: Global, found: &[Token]) -> Result<String, AllocError> {
    let mut text = String::new(alloc);
    for token in found {
        let kind = token.kind;
        let line = format!(in alloc; "{kind:?} {} {}\n", token.start, token.end)?;
        text.push_str(line.as_str())?;
    }
    Ok(text)
}

/// The tokens of a text, or its first fault.
fn token_answer(alloc: Global, text: &[u8]) -> Result<String, AllocError> {
    if text.len() > MEGABYTE {
        return String::from_str(alloc, "too long\n");
    }
    match tokens(alloc, text) {
        Ok(found) => lines_of(alloc, found.as_slice()),
        Err(LexFault::BadByte { at }) => fault_text(alloc, "bad byte", at as u64),
        Err(LexFault::BadNumber { at }) => fault_text(alloc, "bad number", at as u64),
        Err(LexFault::OpenText { at }) => fault_text(alloc, "open text", at as u64),
        Err(LexFault::OutOfMemory) => Err(AllocError),
    }
}

/// Whether a text parses, or its first fault.
fn parse_answer(alloc: Global, text: &[u8]) -> Result<String, AllocError> {
    match parsed(alloc, text) {
        Ok(_) => String::from_str(alloc, "ok\n"),
        Err(SyntaxFault::Unexpected { at }) => fault_text(alloc, "unexpected", at as u64),
        Err(SyntaxFault::TooDeep { at }) => fault_text(alloc, "too deep", at as u64),
        Err(SyntaxFault::OutOfMemory) => Err(AllocError),
    }
}

/// The places of the one value that a text prints.
fn place_answer(alloc: Global, text: &[u8]) -> Result<String, AllocError> {
    let Ok(program) = parsed(alloc, text) else {
        return String::from_str(alloc, "it does not parse\n");
    };
    match places(&program) {
        Some((stmt, line, value, first, inner)) => {
            format!(in alloc; "{stmt} {line} {value} {first} {inner}\n")
        },
        None => String::from_str(alloc, "another form\n"),
    }
}

/// Whether a text keeps the affine rule, or its first breach.
fn affine_answer(alloc: Global, text: &[u8]) -> Result<String, AllocError> {
    let Some(found) = found(alloc, text) else {
        return String::from_str(alloc, "no well-typed program\n");
    };
    match found {
        None => String::from_str(alloc, "ok\n"),
        Some(AffineFault::Copied { at }) => fault_text(alloc, "copied", at as u64),
        Some(AffineFault::Stored { at }) => fault_text(alloc, "stored", at as u64),
        Some(AffineFault::UsedTwice { at }) => fault_text(alloc, "used twice", at as u64),
        Some(AffineFault::InLoop { at }) => fault_text(alloc, "in a loop", at as u64),
        Some(AffineFault::OutOfMemory) => Err(AllocError),
    }
}

/// The line and the column of a place in a text.
fn column_answer(alloc: Global, text: &[u8], place: &str) -> Result<String, CaseFault> {
    let at = u32::try_from(number_of(place)?).unwrap_or(u32::MAX);
    if text.len() > MEGABYTE || at as usize > text.len() {
        return Err(CaseFault::Malformed);
    }
    let (line, column) = line_column(text, at);
    Ok(format!(in alloc; "{line} {column}\n")?)
}

/// Whether a text is a trace, or where it is malformed.
fn reading_answer(alloc: Global, text: &[u8]) -> Result<String, AllocError> {
    match read_trace(alloc, text) {
        Ok(_) => String::from_str(alloc, "ok\n"),
        Err(TraceFault::Malformed { at }) => fault_text(alloc, "malformed", at),
        Err(TraceFault::OutOfMemory) => Err(AllocError),
    }
}

/// The trace that a text is, printed again.
fn printed_answer(alloc: Global, text: &[u8]) -> Result<Vec<u8>, AllocError> {
    match read_trace(alloc, text) {
        Ok(trace) => print_trace(alloc, &trace),
        Err(TraceFault::Malformed { .. }) => Vec::from_slice(alloc, b"malformed\n"),
        Err(TraceFault::OutOfMemory) => Err(AllocError),
    }
}

/// What a call by its name answers for a text.
fn named_answer(alloc: Global, call: &str, text: &[u8]) -> Result<String, CaseFault> {
    if let Some(place) = call.strip_prefix("column ") {
        return column_answer(alloc, text, place);
    }
    match call {
        "tokens" => Ok(token_answer(alloc, text)?),
        "parse" => Ok(parse_answer(alloc, text)?),
        "places" => Ok(place_answer(alloc, text)?),
        "affine" => Ok(affine_answer(alloc, text)?),
        "read" => Ok(reading_answer(alloc, text)?),
        _ => Err(CaseFault::Malformed),
    }
}

/// What a call answers for a text.
pub fn answer_of(alloc: Global, call: &str, text: &[u8]) -> Result<Vec<u8>, CaseFault> {
    if call == "print" {
        return Ok(printed_answer(alloc, text)?);
    }
    let answer = named_answer(alloc, call, text)?;
    Ok(Vec::from_slice(alloc, answer.as_bytes())?)
}
