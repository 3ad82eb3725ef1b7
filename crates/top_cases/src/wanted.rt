//! What a row wants of an answer.

use crate::call::Answer;
use crate::kernels::Kernels;
use case_tables::{CaseFault, Pieces, field, has, number_of, numbers_of};
use std::alloc::Global;
use std::sync::atomic::{AtomicU64, Ordering};
use thread_runs::Ran;

/// Whether both outputs are those of the row.
fn is_written(
    alloc: Global,
    pieces: &Pieces,
    row: &str,
    answer: &Answer,
) -> Result<bool, CaseFault> {
    if has(row, "any") {
        return Ok(true);
    }
    let err = pieces.lines(alloc, row, "!")?;
    if answer.err.as_slice() != err.as_slice() {
        return Ok(false);
    }
    if has(row, "begins") {
        let front = pieces.lines(alloc, row, "begins")?;
        return Ok(answer.out.as_slice().starts_with(front.as_slice()));
    }
    let out = pieces.lines(alloc, row, ">")?;
    Ok(answer.out.as_slice() == out.as_slice())
}

/// Whether the status is one of those of the row: 0 where it names none.
fn is_status(alloc: Global, row: &str, status: u8) -> Result<bool, CaseFault> {
    let Some(text) = field(row, "=") else {
        return Ok(status == 0);
    };
    let statuses = numbers_of(alloc, text)?;
    Ok(statuses.as_slice().contains(&(status as u64)))
}

/// Whether a run was handed out or not, as the row says.
fn is_handed_out(row: &str, ran: &Option<Ran>) -> bool {
    match field(row, "ran") {
        Some("some") => ran.is_some(),
        Some("none") => ran.is_none(),
        Some(_) => false,
        None => true,
    }
}

/// Whether the run has copied so many snapshots as the row says.
fn has_copied(row: &str, ran: &Option<Ran>) -> Result<bool, CaseFault> {
    let Some(text) = field(row, "copies") else {
        return Ok(true);
    };
    let copies = number_of(text)?;
    Ok(match ran {
        Some(run) => run.copies() == copies,
        None => false,
    })
}

/// Whether the third entry of the run's schedule is that of the row.
fn is_third(row: &str, ran: &Option<Ran>) -> Result<bool, CaseFault> {
    let Some(text) = field(row, "third") else {
        return Ok(true);
    };
    let third = number_of(text)?;
    Ok(match ran {
        Some(run) => run
            .schedule()
            .get(2)
            .is_some_and(|entry| *entry as u64 == third),
        None => false,
    })
}

/// Whether the run left no segment in use.
fn is_over(ran: &Option<Ran>) -> bool {
    match ran {
        Some(run) => run.live() == 0,
        None => true,
    }
}

/// Whether an answer is what the row wants.
pub fn is_wanted(
    alloc: Global,
    pieces: &Pieces,
    row: &str,
    answer: &Answer,
) -> Result<bool, CaseFault> {
    let ran = &answer.ran;
    if !is_written(alloc, pieces, row, answer)? || !is_status(alloc, row, answer.status)? {
        return Ok(false);
    }
    if has(row, "unread") && !answer.is_unread {
        return Ok(false);
    }
    if !has_copied(row, ran)? || !is_third(row, ran)? {
        return Ok(false);
    }
    Ok(answer.has_met && is_handed_out(row, ran) && is_over(ran))
}

/// Whether a count is that of the row, if it names one.
fn is_count(row: &str, mark: &str, count: &AtomicU64) -> Result<bool, CaseFault> {
    match field(row, mark) {
        Some(text) => Ok(number_of(text)? == count.load(Ordering::SeqCst)),
        None => Ok(true),
    }
}

/// Whether the kernels that add up were called as often as the row says.
pub fn are_called(kernels: &Kernels, row: &str) -> Result<bool, CaseFault> {
    Ok(is_count(row, "sums", kernels.sums)? && is_count(row, "rows", kernels.rows)?)
}
