//! Faulty texts, in each of which `@` stands before the place of the fault, and texts that keep all
//! rules.

use crate::call::calm_answer;
use case_tables::{CaseFault, Pieces};
use std::alloc::{AllocError, Global};
use std::sync::Wait;
use std::thread::Threads;

/// One word.
fn one_word(alloc: Global, word: &str) -> Result<Vec<String>, AllocError> {
    let mut words = Vec::new(alloc);
    words.push(String::from_str(alloc, word)?)?;
    Ok(words)
}

/// Whether a call with one word answers this: bytes of both outputs and the status.
fn answers<R: AllocGlobal + Threads + Wait + Sync>(
    rt: &R,
    word: &str,
    text: Vec<u8>,
    out: &[u8],
    err: &[u8],
    status: u8,
) -> Result<bool, AllocError> {
    let words = one_word(rt.alloc(), word)?;
    let answer = calm_answer(rt, words.as_slice(), text, &[])?;
    let is_written = answer.out.as_slice() == out && answer.err.as_slice() == err;
    Ok(is_written && answer.status == status)
}

/// Whether the text is refused at the mark, which stands in its first line, with this fault.
pub fn is_refused<R: AllocGlobal + Threads + Wait + Sync>(
    rt: &R,
    pieces: &Pieces,
    marked: &str,
    fault: &str,
) -> Result<bool, CaseFault> {
    let (text, before) = pieces.marked(rt.alloc(), marked)?;
    let column = before.saturating_add(1);
    let message = format!(in rt.alloc(); "error: line 1 column {column}: {fault}\n")?;
    Ok(answers(rt, "run", text, b"", message.as_bytes(), 2)?)
}

/// Whether the text is a program that keeps all rules.
pub fn is_sound<R: AllocGlobal + Threads + Wait + Sync>(
    rt: &R,
    pieces: &Pieces,
    text: &str,
) -> Result<bool, CaseFault> {
    let text = pieces.bytes_of(rt.alloc(), text)?;
    Ok(answers(rt, "check", text, b"ok\n", b"", 0)?)
}
