//! Reads the lines of a trace, each from its one spelling.

ghost use Rattle.std.specs.Prelude.{◌≡◌, ◌<◌, ◌^◌, IfOk, MatchOption};
ghost use Rattle.std.specs.List.{list_all};
ghost use Rattle.trace_diagram.specs.Lines.{FitsChange, FitsEnd, FitsEvent, FitsPath, IsPlaceOf};
ghost use Rattle.trace_diagram.specs.Lines.{change_text, end_text, event_text};
ghost use Rattle.trace_diagram.specs.Lines.{fuel_text, head_text, is_printable};
ghost use Rattle.trace_diagram.specs.Reading.{IsNoQuote, IsQuote, Reads};
ghost use Rattle.trace_diagram.specs.Ends.{EndsSo, FitsLocated, LacksMerge, LacksPlain};
ghost use Rattle.trace_diagram.specs.Ends.{IsMerge, IsPlain, located_text, where_text};

use crate::cut::cut;
use crate::diagram::{Change, PartEnd, TraceEvent};
use crate::places::is_place;
use crate::spelled::{are, behind, read_number, read_path, read_small, read_value};
use rev_num::{Cause, Items, NumFault, Path, Trap};
use std::alloc::{AllocError, Global};

/// A path, and the line of a statement.
#[derive(Drop)]
struct Located {
    path: Path,
    line: u32,
}

/// The trap of a merge: the place of its location, its fault, and what stands behind these.
#[derive(Drop)]
struct MergeFault<'a> {
    place: &'a [u8],
    fault: NumFault,
    rest: &'a [u8],
}

/// The path with which a part begins.
pub(crate) fn read_head(alloc: Global, line: &[u8]) -> Result<Option<Path>, AllocError>
    ensures { IfOk result (Reads FitsPath head_text line.now) }
{
    match behind(line, b"revision ") {
        Some(path) => read_path(alloc, path),
        None => Ok(None),
    }
}

/// A path and a line, with ` line ` between them.
fn read_located(alloc: Global, bytes: &[u8]) -> Result<Option<Located>, AllocError>
    ensures { IfOk result (Reads FitsLocated located_text bytes.now) }
{
    let Some((front, rest)) = cut(bytes, b' ') else {
        return Ok(None);
    };
    let Some(digits) = behind(rest, b"line ") else {
        return Ok(None);
    };
    let Some(line) = read_small(digits) else {
        return Ok(None);
    };
    match read_path(alloc, front)? {
        Some(path) => Ok(Some(Located { path, line })),
        None => Ok(None),
    }
}

/// A fork or a join.
pub(crate) fn read_event(alloc: Global, line: &[u8]) -> Result<Option<TraceEvent>, AllocError>
    ensures { IfOk result (Reads FitsEvent event_text line.now) }
{
    if let Some(rest) = behind(line, b"forked ") {
        return match read_located(alloc, rest)? {
            Some(Located { path, line }) => Ok(Some(TraceEvent::Forked { child: path, line })),
            None => Ok(None),
        };
    }
    let Some(rest) = behind(line, b"joined ") else {
        return Ok(None);
    };
    match read_located(alloc, rest)? {
        Some(Located { path, line }) => Ok(Some(TraceEvent::Joined { on: path, line })),
        None => Ok(None),
    }
}

/// The cause of a trap that is no merge's, and what stands behind it.
fn read_cause(bytes: &[u8]) -> Option<(Cause, &[u8])>
    ensures { MatchOption result (LacksPlain bytes.now) (λ x. IsPlain x.0 bytes.now x.1.now) }
{
    if let Some(rest) = behind(bytes, b"overflow") {
        return Some((Cause::Overflow, rest));
    }
    if let Some(rest) = behind(bytes, b"zero divisor") {
        return Some((Cause::ZeroDivisor, rest));
    }
    if let Some(rest) = behind(bytes, b"index") {
        return Some((Cause::Index, rest));
    }
    if let Some(rest) = behind(bytes, b"assert") {
        return Some((Cause::Assert, rest));
    }
    if let Some(rest) = behind(bytes, b"join of none") {
        return Some((Cause::JoinNone, rest));
    }
    if let Some(rest) = behind(bytes, b"call depth") {
        return Some((Cause::CallDepth, rest));
    }
    match behind(bytes, b"fuel spent") {
        Some(rest) => Some((Cause::Spent, rest)),
        None => None,
    }
}

/// The cause of a trap that is a merge's.
fn read_merge(bytes: &[u8]) -> Option<MergeFault<'_>>
    ensures { MatchOption result (LacksMerge bytes.now)
        (λ m. IsMerge m.place.now m.fault bytes.now m.rest.now) }
{
    let Some(named) = behind(bytes, b"merge of ") else {
        return None;
    };
    let Some((place, more)) = cut(named, b':') else {
        return None;
    };
    if !is_place(place) {
        return None;
    }
    if let Some(rest) = behind(more, b" overflow") {
        return Some(MergeFault {
            place,
            fault: NumFault::Overflow,
            rest,
        });
    }
    match behind(more, b" zero divisor") {
        Some(rest) => Some(MergeFault {
            place,
            fault: NumFault::ZeroDivisor,
            rest,
        }),
        None => None,
    }
}

/// Where a revision trapped: the line, and the revision that trapped first.
fn read_where(alloc: Global, bytes: &[u8]) -> Result<Option<Located>, AllocError>
    ensures { IfOk result (Reads FitsLocated where_text bytes.now) }
{
    let Some(digits) = behind(bytes, b" at line ") else {
        return Ok(None);
    };
    let Some((digits, rest)) = cut(digits, b' ') else {
        return Ok(None);
    };
    let Some(line) = read_small(digits) else {
        return Ok(None);
    };
    let Some(path) = behind(rest, b"in revision ") else {
        return Ok(None);
    };
    match read_path(alloc, path)? {
        Some(path) => Ok(Some(Located { path, line })),
        None => Ok(None),
    }
}

/// The end by a trap with this cause and place, behind which stands where it was.
fn read_trap(
    alloc: Global,
    cause: Cause,
    place: &[u8],
    rest: &[u8],
) -> Result<Option<PartEnd>, AllocError>
    requires { IsPlaceOf cause place.now }
    ensures { IfOk result (EndsSo cause place.now rest.now) }
{
    let Some(Located { path, line }) = read_where(alloc, rest)? else {
        return Ok(None);
    };
    let place = Items::from_vec(Vec::from_slice(alloc, place)?);
    Ok(Some(PartEnd::Trapped {
        trap: Trap {
            cause,
            line,
            origin: path,
        },
        place,
    }))
}

/// How a revision ended.
pub(crate) fn read_end(alloc: Global, line: &[u8]) -> Result<Option<PartEnd>, AllocError>
    ensures { IfOk result (Reads FitsEnd end_text line.now) }
{
    let Some(end) = behind(line, b"end ") else {
        return Ok(None);
    };
    if are(end, b"done") {
        return Ok(Some(PartEnd::Done));
    }
    if let Some((cause, rest)) = read_cause(end) {
        return read_trap(alloc, cause, b"", rest);
    }
    match read_merge(end) {
        Some(merge) => {
            let cause = Cause::Merge {
                location: 0,
                fault: merge.fault,
            };
            read_trap(alloc, cause, merge.place, merge.rest)
        }
        None => Ok(None),
    }
}

/// The fuel that was left.
pub(crate) fn read_fuel(line: &[u8]) -> Option<u64>
    ensures { Reads (λ n. n < 2 ^ 64) fuel_text line.now result }
{
    match behind(line, b"fuel ") {
        Some(number) => read_number(number),
        None => None,
    }
}

/// A write.
pub(crate) fn read_change(alloc: Global, line: &[u8]) -> Result<Option<Change>, AllocError>
    ensures { IfOk result (Reads FitsChange change_text line.now) }
{
    let Some(rest) = behind(line, b"write ") else {
        return Ok(None);
    };
    let Some((place, values)) = cut(rest, b' ') else {
        return Ok(None);
    };
    let Some((value, rest)) = cut(values, b' ') else {
        return Ok(None);
    };
    let Some(root) = behind(rest, b"root ") else {
        return Ok(None);
    };
    if !is_place(place) {
        return Ok(None);
    }
    let Some(value) = read_value(alloc, value)? else {
        return Ok(None);
    };
    let Some(root) = read_value(alloc, root)? else {
        return Ok(None);
    };
    let place = Items::from_vec(Vec::from_slice(alloc, place)?);
    Ok(Some(Change { place, value, root }))
}

#[tactic(auto, using(rev_num::proofs::Lists::all_more, rev_num::proofs::Lists::all_none))]
fn are_printable(bytes: &[u8]) -> bool
    ensures { result ≡ list_all is_printable bytes.now }
{
    for b in bytes {
        if *b < b' ' || b'~' < *b {
            return false;
        }
    }
    true
}

/// A line that the revision printed.
pub(crate) fn read_quoted(line: &[u8]) -> Option<&[u8]>
    ensures { MatchOption result (IsNoQuote line.now) (λ text. IsQuote line.now text.now) }
{
    match behind(line, b"> ") {
        Some(text) if are_printable(text) => Some(text),
        _ => None,
    }
}
