//! The rows of the table.

use crate::call::{Answer, Manner, answer_by};
use crate::faults::{is_refused, is_sound};
use crate::kernels::Kernels;
use crate::merges::merges;
use crate::wanted::{are_called, is_wanted};
use case_tables::{CaseFault, Pieces, Rounds, Tally, behind, field, has, number_of, numbers_of};
use std::alloc::Global;
use std::io;
use std::sync::Wait;
use std::thread::Threads;

/// The marks that a line may have.
pub const MARKS: &[&str] = &[
    "#", ":", "let", "*", "$", "|", "first", "byte", "behind", "reads", "unread", "writes",
    "prints", "meet", ">", "!", "=", "any", "begins", "keep", "ran", "copies", "third", "merge",
    "gives", "?", "@", "+", "kernels", "sums", "rows",
];

/// The words of a row.
fn words_of(alloc: Global, pieces: &Pieces, row: &str) -> Result<Vec<String>, CaseFault> {
    let line = pieces.text_of(alloc, field(row, "$").unwrap_or(""))?;
    let mut words = Vec::new(alloc);
    for word in line.as_str().split_whitespace() {
        words.push(String::from_str(alloc, word)?)?;
    }
    Ok(words)
}

/// A number for lengths and steps.
fn size(number: u64) -> usize {
    usize::try_from(number).unwrap_or(usize::MAX)
}

/// Two numbers behind a mark of the row, if it has the mark.
fn pair_of(
    alloc: Global,
    pieces: &Pieces,
    row: &str,
    mark: &str,
) -> Result<Option<(u64, u64)>, CaseFault> {
    let Some(text) = field(row, mark) else {
        return Ok(None);
    };
    let text = pieces.text_of(alloc, text)?;
    let numbers = numbers_of(alloc, text.as_str())?;
    match numbers.as_slice() {
        [first, second] => Ok(Some((*first, *second))),
        _ => Err(CaseFault::Malformed),
    }
}

/// Puts another byte at a place, of which both stand behind the mark of a line.
fn change_byte(
    alloc: Global,
    pieces: &Pieces,
    line: &str,
    source: &mut Vec<u8>,
) -> Result<(), CaseFault> {
    let Some((at, byte)) = pair_of(alloc, pieces, line, "byte")? else {
        return Ok(());
    };
    let Some(place) = source.get_mut(size(at)) else {
        return Err(CaseFault::Malformed);
    };
    *place = u8::try_from(byte).unwrap_or(0);
    Ok(())
}

/// Leaves so many of the first bytes as the row says, if it says so.
fn cut(alloc: Global, pieces: &Pieces, row: &str, source: &mut Vec<u8>) -> Result<(), CaseFault> {
    if let Some(text) = field(row, "first") {
        let text = pieces.text_of(alloc, text)?;
        source.truncate(size(number_of(text.as_str())?));
    }
    Ok(())
}

/// Appends so many bytes as the row says, if it says so.
fn lengthen(
    alloc: Global,
    pieces: &Pieces,
    row: &str,
    source: &mut Vec<u8>,
) -> Result<(), CaseFault> {
    if let Some((count, byte)) = pair_of(alloc, pieces, row, "behind")? {
        let byte = u8::try_from(byte).unwrap_or(0);
        for _ in 0..count {
            source.push(byte)?;
        }
    }
    Ok(())
}

/// The source of a row.
fn source_of(alloc: Global, pieces: &Pieces, row: &str) -> Result<Vec<u8>, CaseFault> {
    let mut source = pieces.body(alloc, row, "|")?;
    cut(alloc, pieces, row, &mut source)?;
    for line in row.split('\n') {
        change_byte(alloc, pieces, line, &mut source)?;
    }
    lengthen(alloc, pieces, row, &mut source)?;
    Ok(source)
}

/// Who waits for whom, by the numbers of a row.
fn pairs_of(alloc: Global, text: &str) -> Result<[(u32, u32); 2], CaseFault> {
    let numbers = numbers_of(alloc, text)?;
    let [a, b, c, d] = numbers.as_slice() else {
        return Err(CaseFault::Malformed);
    };
    let number = |n: u64| u32::try_from(n).unwrap_or(u32::MAX);
    Ok([(number(*a), number(*b)), (number(*c), number(*d))])
}

/// How the call of a row is made.
fn manner_of(alloc: Global, pieces: &Pieces, row: &str) -> Result<Manner, CaseFault> {
    if let Some((step, call)) = pair_of(alloc, pieces, row, "reads")? {
        let step = size(step);
        return Ok(Manner::Reads { step, call });
    }
    if let Some((step, call)) = pair_of(alloc, pieces, row, "writes")? {
        let step = size(step);
        return Ok(Manner::Writes { step, call });
    }
    if let Some((step, call)) = pair_of(alloc, pieces, row, "prints")? {
        let step = size(step);
        return Ok(Manner::Prints { step, call });
    }
    match field(row, "meet") {
        Some(text) => Ok(Manner::Meets(pairs_of(alloc, text)?)),
        None => Ok(Manner::Calm),
    }
}

/// What the call of a row answers.
fn answer_to<R: AllocGlobal + Threads + Wait + Sync>(
    rt: &R,
    kernels: &Kernels,
    pieces: &Pieces,
    row: &str,
) -> Result<Answer, CaseFault> {
    let manner = manner_of(rt.alloc(), pieces, row)?;
    let words = words_of(rt.alloc(), pieces, row)?;
    let source = source_of(rt.alloc(), pieces, row)?;
    let chosen = kernels.of_row(rt.alloc(), row)?;
    kernels.forget();
    Ok(answer_by(rt, words.as_slice(), source, manner, chosen)?)
}

/// Keeps what was printed, without its last line end, as a piece, where the row names that.
fn keep_printed(
    alloc: Global,
    pieces: &mut Pieces,
    row: &str,
    printed: &[u8],
) -> Result<(), CaseFault> {
    let Some(name) = field(row, "keep") else {
        return Ok(());
    };
    let mut bytes = Vec::from_slice(alloc, printed)?;
    bytes.pop();
    pieces.add(alloc, name, bytes)
}

/// Whether a call answers what its row wants.
fn is_good<R: AllocGlobal + Threads + Wait + Sync>(
    rt: &R,
    kernels: &Kernels,
    pieces: &mut Pieces,
    row: &str,
) -> Result<bool, CaseFault> {
    if let Some(numbers) = field(row, "merge") {
        return merges(rt.alloc(), pieces, row, numbers);
    }
    let answer = answer_to(rt, kernels, pieces, row)?;
    let good = is_wanted(rt.alloc(), pieces, row, &answer)? && are_called(kernels, row)?;
    keep_printed(rt.alloc(), pieces, row, answer.out.as_slice())?;
    Ok(good)
}

/// Whether a round of a row is good.
fn is_good_round<R: AllocGlobal + Threads + Wait + Sync>(
    rt: &R,
    kernels: &Kernels,
    pieces: &mut Pieces,
    row: &str,
    rounds: &Rounds,
    round: usize,
) -> Result<bool, CaseFault> {
    rounds.add_to(rt.alloc(), pieces, round)?;
    pieces.add_lets(rt.alloc(), row)?;
    is_good(rt, kernels, pieces, row)
}

/// Plays the rounds of a row of one call. What its names stand for is forgotten behind each, but
/// for what was printed and is kept.
fn play_rounds<R: AllocGlobal + Print + Threads + Wait + Sync>(
    rt: &R,
    kernels: &Kernels,
    pieces: &mut Pieces,
    tally: &mut Tally,
    row: &str,
) -> io::Result<()> {
    let rounds = match Rounds::of(rt.alloc(), row) {
        Ok(rounds) => rounds,
        Err(fault) => return tally.count(rt, row, Err(fault)),
    };
    let outer = pieces.count();
    for round in 0..rounds.count() {
        let good = is_good_round(rt, kernels, pieces, row, &rounds, round);
        tally.count(rt, row, good)?;
        if !has(row, "keep") {
            pieces.keep(outer);
        }
    }
    Ok(())
}

/// Plays a row whose lines are texts: faulty ones behind `@`, with one fault, and sound ones behind
/// `+`.
fn play_texts<R: AllocGlobal + Print + Threads + Wait + Sync>(
    rt: &R,
    pieces: &mut Pieces,
    tally: &mut Tally,
    row: &str,
) -> io::Result<()> {
    let fault = field(row, "?").unwrap_or("");
    for line in row.split('\n') {
        if let Some(marked) = behind(line, "@") {
            tally.count(rt, line, is_refused(rt, pieces, marked, fault))?;
        }
        if let Some(text) = behind(line, "+") {
            tally.count(rt, line, is_sound(rt, pieces, text))?;
        }
    }
    Ok(())
}

/// Plays a row: by whole calls of the program where it has words, by a merge, or by its texts.
pub fn play<R: AllocGlobal + Print + Threads + Wait + Sync>(
    rt: &R,
    kernels: &Kernels,
    pieces: &mut Pieces,
    tally: &mut Tally,
    row: &str,
) -> io::Result<()> {
    if has(row, "$") || has(row, "merge") {
        return play_rounds(rt, kernels, pieces, tally, row);
    }
    match pieces.define(rt.alloc(), row) {
        Ok(()) => play_texts(rt, pieces, tally, row),
        Err(fault) => tally.count(rt, row, Err(fault)),
    }
}
