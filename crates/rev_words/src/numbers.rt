//! The input numbers, those of the run before, and the schedule.

ghost use Rattle.std.specs.Prelude.{◌≡◌, ◌==◌, [], IfOk, codes, map, unwrap_or};
ghost use Rattle.std.specs.List.{slice_split};
ghost use Rattle.clap.specs.Words.{all_of, first_of, found_of, rows_of};
ghost use Rattle.rev_words.specs.Answer.{Gives};
ghost use Rattle.rev_words.specs.Numbers.{few_numbers_in, list_in, numbers_in};
ghost use Rattle.rev_words.specs.Schedule.{entries_in, entry_in, schedule_in};

use crate::command::{text_of, texts_of};
use crate::fault::WordsFault;
use clap::ArgMatches;
use rev_num::read_decimal;
use std::alloc::{AllocError, Global};

/// The numbers that the texts spell.
fn numbers_in(alloc: Global, texts: &[&str]) -> Result<Vec<i64>, WordsFault>
    ensures { Gives (λ v. v.items) result (numbers_in (map (λ s. s.now) texts.now)) }
{
    let mut numbers = Vec::new(alloc);
    for text in texts {
        numbers.push(read_decimal(text.as_bytes()).ok_or(WordsFault::Usage)?)?;
    }
    Ok(numbers)
}

/// The same, of at most 1,024 texts.
fn few_numbers_in(alloc: Global, texts: &[&str]) -> Result<Vec<i64>, WordsFault>
    ensures { Gives (λ v. v.items) result (few_numbers_in (map (λ s. s.now) texts.now)) }
{
    if texts.len() <= 1_024 {
        numbers_in(alloc, texts)
    } else {
        Err(WordsFault::Usage)
    }
}

/// The input numbers.
pub(crate) fn numbers_of(alloc: Global, matches: &ArgMatches) -> Result<Vec<i64>, WordsFault>
    ensures { let texts = unwrap_or
        (all_of (codes "numbers") (rows_of (found_of matches.now))) [] in
        Gives (λ v. v.items) result (few_numbers_in texts) }
{
    match texts_of(matches, "numbers") {
        Some(texts) => few_numbers_in(alloc, texts),
        None => Ok(Vec::new(alloc)),
    }
}

/// The numbers of a list: decimals with a comma between two of them, at most 1,024.
fn list_in(alloc: Global, text: &str) -> Result<Vec<i64>, WordsFault>
    ensures { Gives (λ v. v.items) result (list_in text.now) }
{
    if text.is_empty() {
        return Ok(Vec::new(alloc));
    }
    let parts = parts_of(alloc, text)?;
    few_numbers_in(alloc, parts.as_slice())
}

/// The input numbers of the run before.
pub(crate) fn before_of(alloc: Global, matches: &ArgMatches) -> Result<Vec<i64>, WordsFault>
    ensures { let text = first_of (codes "before") (rows_of (found_of matches.now)) in
        Gives (λ v. v.items) result (list_in (unwrap_or text [])) }
{
    match text_of(matches, "before") {
        Some(text) => list_in(alloc, text),
        None => Ok(Vec::new(alloc)),
    }
}

/// The number that digits spell, if 32 bits hold it.
fn entry_in(digits: &str) -> Option<u32>
    ensures { result ≡ entry_in digits.now }
{
    if digits.as_bytes().starts_with(b"-") {
        return None;
    }
    u32::try_from(read_decimal(digits.as_bytes())?).ok()
}

/// The entries that the texts spell.
fn entries_in(alloc: Global, texts: &[&str]) -> Result<Vec<u32>, WordsFault>
    ensures { Gives (λ v. v.items) result (entries_in (map (λ s. s.now) texts.now)) }
{
    let mut entries = Vec::new(alloc);
    for text in texts {
        entries.push(entry_in(text).ok_or(WordsFault::Usage)?)?;
    }
    Ok(entries)
}

/// The parts of a text between its commas.
fn parts_of<'a>(alloc: Global, text: &'a str) -> Result<Vec<&'a str>, AllocError>
    ensures { IfOk result (λ v.
        map (λ s. s.now) v.items ≡ slice_split (λ b. b == 44) text.entry.now) }
{
    text.split(',').collect(alloc)
}

/// The entries of a schedule: numbers with a comma between two of them, at most 65,536.
fn schedule_in(alloc: Global, text: &str) -> Result<Vec<u32>, WordsFault>
    ensures { Gives (λ v. v.items) result (schedule_in text.now) }
{
    if text.is_empty() {
        return Ok(Vec::new(alloc));
    }
    let parts = parts_of(alloc, text)?;
    if parts.len() <= 65_536 {
        entries_in(alloc, parts.as_slice())
    } else {
        Err(WordsFault::Usage)
    }
}

/// The schedule.
pub(crate) fn schedule_of(alloc: Global, matches: &ArgMatches) -> Result<Vec<u32>, WordsFault>
    ensures { let text = first_of (codes "schedule") (rows_of (found_of matches.now)) in
        Gives (λ v. v.items) result (schedule_in (unwrap_or text [])) }
{
    match text_of(matches, "schedule") {
        Some(text) => schedule_in(alloc, text),
        None => Ok(Vec::new(alloc)),
    }
}
