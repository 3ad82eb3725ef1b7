//! Refusals and their messages.
ghost use Rattle.std.specs.Prelude.{◌≡◌, IfOk};
ghost use Rattle.std.specs.String.{string_bytes};
ghost use Rattle.rev_report.specs.Report.{output};
ghost use Rattle.rev_report.specs.Refusals as spec;
ghost use Rattle.rev_report.specs.Refusals.{message, more_than, no_memory, refused, status_of};

use crate::code_fault::{FileFault, InstructionFault};
use crate::fault::{Place, TextFault};
use crate::{Limit, Report, status};
use rev_num::{Path, append_path};
use std::alloc::{AllocError, Global};

/// Why a call is refused. Bytes, blocks, instructions and entries are counted from 0.
#[derive(Drop)]
pub enum Refusal {
    /// The words have no reading.
    Usage,
    /// The source failed.
    ReadFault,
    /// The source gave more bytes than it may have.
    TooLong,
    /// Something is wrong with the text at this place.
    Text {
        place: Place,
        fault: TextFault,
    },
    /// From this place on the text has more of something than it may have.
    OverLimit {
        place: Place,
        limit: u32,
        which: Limit,
    },
    /// The bytes begin otherwise than a code file.
    BadMagic,
    /// There is no such version of a code file.
    BadVersion,
    /// Something is wrong with the code file at this byte.
    File {
        at: u64,
        fault: FileFault,
    },
    /// This instruction of this block breaks a rule on code.
    Code {
        block: u32,
        at: u32,
        fault: InstructionFault,
    },
    /// No trace begins with the lines up to and with the one at this byte.
    Trace {
        at: u64,
    },
    /// This entry of the schedule names this revision, which cannot step.
    Schedule {
        entry: u64,
        revision: u32,
    },
    /// The trace has another part of this revision than it should have.
    Differs {
        revision: Path,
    },
}

/// What is said of a place of a text.
fn at_place(alloc: Global, place: Place, what: &str) -> Result<Vec<u8>, AllocError>
    ensures { IfOk result (λ m. m.items ≡ spec.at_place place what.now) }
{
    let Place { line, column } = place;
    let text = format!(in alloc; "error: line {line} column {column}: {what}")?;
    Ok(text.into_bytes())
}

/// That a text has more of something than it may have.
fn more_than(alloc: Global, limit: u32, which: Limit) -> Result<String, AllocError>
    ensures { IfOk result (λ s. string_bytes s ≡ more_than limit which) }
{
    let name = which.name();
    format!(in alloc; "more than {limit} {name}")
}

/// What is said of a byte of a code file.
fn at_byte(alloc: Global, at: u64, what: &str) -> Result<Vec<u8>, AllocError>
    ensures { IfOk result (λ m. m.items ≡ spec.at_byte at what.now) }
{
    let text = format!(in alloc; "error: code byte {at}: {what}")?;
    Ok(text.into_bytes())
}

/// What is said of an instruction of code.
fn at_instruction(alloc: Global, block: u32, at: u32, what: &str) -> Result<Vec<u8>, AllocError>
    ensures { IfOk result (λ m. m.items ≡ spec.at_instruction block at what.now) }
{
    let text = format!(in alloc; "error: block {block} instruction {at}: {what}")?;
    Ok(text.into_bytes())
}

/// What is said of the line of a trace that begins at a byte.
fn malformed(alloc: Global, at: u64) -> Result<Vec<u8>, AllocError>
    ensures { IfOk result (λ m. m.items ≡ spec.malformed at) }
{
    let text = format!(in alloc; "error: trace byte {at}: malformed")?;
    Ok(text.into_bytes())
}

/// What is said of an entry of a schedule.
fn cannot_step(alloc: Global, entry: u64, revision: u32) -> Result<Vec<u8>, AllocError>
    ensures { IfOk result (λ m. m.items ≡ spec.cannot_step entry revision) }
{
    let text = format!(in alloc; "error: schedule entry {entry}: revision {revision} cannot step")?;
    Ok(text.into_bytes())
}

/// What is said of a revision whose part in a trace is another than it should be.
fn differs(alloc: Global, revision: &Path) -> Result<Vec<u8>, AllocError>
    ensures { IfOk result (λ m. m.items ≡ spec.differs revision.now) }
{
    let mut text = Vec::from_slice(alloc, b"error: revision ")?;
    append_path(&mut text, revision)?;
    text.extend_from_slice(b" differs")?;
    Ok(text)
}

/// What is written of a refusal, without the line feed.
fn message(alloc: Global, refusal: &Refusal) -> Result<Vec<u8>, AllocError>
    ensures { IfOk result (λ m. m.items ≡ message refusal.now) }
{
    match refusal {
        Refusal::Usage => Vec::from_slice(alloc, b"usage: revise MODE [options] [numbers]"),
        Refusal::ReadFault => Vec::from_slice(alloc, b"error: read fault"),
        Refusal::TooLong => Vec::from_slice(alloc, b"error: source too long"),
        Refusal::Text { place, fault } => at_place(alloc, *place, fault.name()),
        Refusal::OverLimit {
            place,
            limit,
            which,
        } => at_place(alloc, *place, more_than(alloc, *limit, *which)?.as_str()),
        Refusal::BadMagic => Vec::from_slice(alloc, b"error: bad magic"),
        Refusal::BadVersion => Vec::from_slice(alloc, b"error: bad version"),
        Refusal::File { at, fault } => at_byte(alloc, *at, fault.name()),
        Refusal::Code { block, at, fault } => at_instruction(alloc, *block, *at, fault.name()),
        Refusal::Trace { at } => malformed(alloc, *at),
        Refusal::Schedule { entry, revision } => cannot_step(alloc, *entry, *revision),
        Refusal::Differs { revision } => differs(alloc, revision),
    }
}

fn status_of(refusal: &Refusal) -> u8
    ensures { result ≡ status_of refusal.now }
{
    match refusal {
        Refusal::Usage => status::USAGE,
        Refusal::ReadFault => status::READ_FAULT,
        Refusal::TooLong => status::REFUSED,
        Refusal::Text { .. } => status::REFUSED,
        Refusal::OverLimit { .. } => status::REFUSED,
        Refusal::BadMagic => status::REFUSED,
        Refusal::BadVersion => status::REFUSED,
        Refusal::File { .. } => status::REFUSED,
        Refusal::Code { .. } => status::REFUSED,
        Refusal::Trace { .. } => status::REFUSED,
        Refusal::Schedule { .. } => status::REFUSED,
        Refusal::Differs { .. } => status::REFUSED,
    }
}

/// The report of a refusal: its message on standard error, and nothing on standard output.
pub fn refusal_bytes(alloc: Global, refusal: &Refusal) -> Result<Report, AllocError>
    ensures { IfOk result (λ r. output r ≡ refused refusal.now) }
{
    let mut err = message(alloc, refusal)?;
    err.push(b'\n')?;
    Ok(Report {
        out: Vec::new(alloc),
        err,
        status: status_of(refusal),
    })
}

/// The message for want of memory, which takes none.
pub fn no_memory_message() -> &'static [u8]
    ensures { result.now ≡ no_memory }
{
    b"error: out of memory\n"
}
