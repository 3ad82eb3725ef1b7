//! The text of a trace.
ghost use Rattle.std.specs.Prelude.{◌≡◌, ◌++◌, OnOk, IfOk, codes, map};
ghost use Rattle.std.specs.Fmt.{decimal};
ghost use Rattle.std.specs.List.{flat_map};
ghost use Rattle.trace_diagram.specs.Lines.{cause_text, change_text, end_text, event_text};
ghost use Rattle.trace_diagram.specs.Lines.{fuel_text, head_text, quoted, value_text};
ghost use Rattle.trace_diagram.specs.Traces.{IsTextOf, IsTrace, ended, part_lines};
ghost use Rattle.trace_diagram.specs.Traces.{text_lines, trace_text};
ghost use Rattle.trace_diagram.specs.Cuts.{IsWithout};
ghost use Rattle.rev_num.specs.Text.{path_text};

use crate::cut::cut;
use crate::diagram::{Change, Part, PartEnd, Trace, TraceEvent};
use itoa::Buffer;
use rev_num::{Cause, Path, Value, append_decimal, append_path, fault_name};
use std::alloc::{AllocError, Global};

/// Appends a number in decimal.
fn append_number(text: &mut Vec<u8>, n: u64) -> Result<(), AllocError>
    ensures { OnOk result (text.new.items ≡ text.old.items ++ decimal n) }
{
    let mut buffer = Buffer::new();
    text.extend_from_slice(buffer.format(n).as_bytes())?;
    Ok(())
}

/// Appends a value. A path has an `@` in front.
fn append_value(text: &mut Vec<u8>, value: &Value) -> Result<(), AllocError>
    ensures { OnOk result (text.new.items ≡ text.old.items ++ value_text value.now) }
{
    match value {
        Value::Int(n) => append_decimal(text, *n),
        Value::Bool(true) => text.extend_from_slice(b"true"),
        Value::Bool(false) => text.extend_from_slice(b"false"),
        Value::Rev(None) => text.extend_from_slice(b"none"),
        Value::Rev(Some(path)) => {
            text.push(b'@')?;
            append_path(text, path)
        }
    }
}

/// Appends a path, and the line of a statement.
fn append_located(text: &mut Vec<u8>, path: &Path, line: u32) -> Result<(), AllocError>
    ensures { OnOk result (text.new.items ≡
        text.old.items ++ (path_text path.now ++ (codes " line " ++ decimal line))) }
{
    append_path(text, path)?;
    text.extend_from_slice(b" line ")?;
    append_number(text, line as u64)
}

/// Appends the line of a fork or a join.
fn append_event(text: &mut Vec<u8>, event: &TraceEvent) -> Result<(), AllocError>
    ensures { OnOk result (text.new.items ≡ text.old.items ++ ended (event_text event.now)) }
{
    match event {
        TraceEvent::Forked { child, line } => {
            text.extend_from_slice(b"forked ")?;
            append_located(text, child, *line)?;
        }
        TraceEvent::Joined { on, line } => {
            text.extend_from_slice(b"joined ")?;
            append_located(text, on, *line)?;
        }
    }
    text.push(b'\n')?;
    Ok(())
}

/// Appends the cause of a trap.
fn append_cause(text: &mut Vec<u8>, cause: Cause, place: &[u8]) -> Result<(), AllocError>
    ensures { OnOk result (text.new.items ≡ text.old.items ++ cause_text cause place.now) }
{
    match cause {
        Cause::Overflow => text.extend_from_slice(b"overflow"),
        Cause::ZeroDivisor => text.extend_from_slice(b"zero divisor"),
        Cause::Index => text.extend_from_slice(b"index"),
        Cause::Assert => text.extend_from_slice(b"assert"),
        Cause::JoinNone => text.extend_from_slice(b"join of none"),
        Cause::CallDepth => text.extend_from_slice(b"call depth"),
        Cause::Spent => text.extend_from_slice(b"fuel spent"),
        Cause::Merge { fault, .. } => {
            text.extend_from_slice(b"merge of ")?;
            text.extend_from_slice(place)?;
            text.extend_from_slice(b": ")?;
            text.extend_from_slice(fault_name(fault))
        }
    }
}

/// Appends the line of an end.
fn append_end(text: &mut Vec<u8>, end: &PartEnd) -> Result<(), AllocError>
    ensures { OnOk result (text.new.items ≡ text.old.items ++ ended (end_text end.now)) }
{
    match end {
        PartEnd::Done => text.extend_from_slice(b"end done")?,
        PartEnd::Trapped { trap, place } => {
            text.extend_from_slice(b"end ")?;
            append_cause(text, trap.cause, place.as_slice())?;
            text.extend_from_slice(b" at line ")?;
            append_number(text, trap.line as u64)?;
            text.extend_from_slice(b" in revision ")?;
            append_path(text, &trap.origin)?;
        }
    }
    text.push(b'\n')?;
    Ok(())
}

/// Appends the line of a write.
fn append_change(text: &mut Vec<u8>, change: &Change) -> Result<(), AllocError>
    ensures { OnOk result (text.new.items ≡ text.old.items ++ ended (change_text change.now)) }
{
    text.extend_from_slice(b"write ")?;
    text.extend_from_slice(change.place.as_slice())?;
    text.push(b' ')?;
    append_value(text, &change.value)?;
    text.extend_from_slice(b" root ")?;
    append_value(text, &change.root)?;
    text.push(b'\n')?;
    Ok(())
}

/// Appends the line of one line that a revision printed.
fn append_quoted(text: &mut Vec<u8>, line: &[u8]) -> Result<(), AllocError>
    ensures { OnOk result (text.new.items ≡ text.old.items ++ ended (quoted line.now)) }
{
    text.extend_from_slice(b"> ")?;
    text.extend_from_slice(line)?;
    text.push(b'\n')?;
    Ok(())
}

/// Appends the line of what stands behind the last line feed, if that is anything.
fn append_last(out: &mut Vec<u8>, rest: &[u8]) -> Result<(), AllocError>
    requires { IsWithout 10 rest.now }
    ensures { OnOk result (out.new.items ≡
        out.old.items ++ flat_map ended (map quoted (text_lines rest.now))) }
{
    if rest.is_empty() {
        return Ok(());
    }
    append_quoted(out, rest)
}

/// Appends the lines of what a revision printed.
fn append_text(out: &mut Vec<u8>, text: &[u8]) -> Result<(), AllocError>
    ensures { OnOk result (out.new.items ≡
        out.old.items ++ flat_map ended (map quoted (text_lines text.now))) }
{
    let mut rest = text;
    while let Some((line, behind)) = cut(rest, b'\n') {
        append_quoted(out, line)?;
        rest = behind;
    }
    append_last(out, rest)
}

/// Appends the lines of the forks and joins.
fn append_events(text: &mut Vec<u8>, events: &[TraceEvent]) -> Result<(), AllocError>
    ensures { OnOk result (text.new.items ≡
        text.old.items ++ flat_map ended (map event_text events.now)) }
{
    for event in events {
        append_event(text, event)?;
    }
    Ok(())
}

/// Appends the lines of the writes.
fn append_changes(text: &mut Vec<u8>, changes: &[Change]) -> Result<(), AllocError>
    ensures { OnOk result (text.new.items ≡
        text.old.items ++ flat_map ended (map change_text changes.now)) }
{
    for change in changes {
        append_change(text, change)?;
    }
    Ok(())
}

/// Appends the line of a path, with which a part begins.
fn append_head(text: &mut Vec<u8>, path: &Path) -> Result<(), AllocError>
    ensures { OnOk result (text.new.items ≡ text.old.items ++ ended (head_text path.now)) }
{
    text.extend_from_slice(b"revision ")?;
    append_path(text, path)?;
    text.push(b'\n')?;
    Ok(())
}

/// Appends the line of the fuel that was left.
fn append_fuel(text: &mut Vec<u8>, fuel: u64) -> Result<(), AllocError>
    ensures { OnOk result (text.new.items ≡ text.old.items ++ ended (fuel_text fuel)) }
{
    text.extend_from_slice(b"fuel ")?;
    append_number(text, fuel)?;
    text.push(b'\n')?;
    Ok(())
}

/// Appends the lines of a part.
fn append_part(text: &mut Vec<u8>, part: &Part) -> Result<(), AllocError>
    ensures { OnOk result (text.new.items ≡
        text.old.items ++ flat_map ended (part_lines part.now)) }
{
    append_head(text, &part.path)?;
    append_events(text, part.events.as_slice())?;
    append_end(text, &part.end)?;
    append_fuel(text, part.fuel)?;
    append_changes(text, part.written.as_slice())?;
    append_text(text, part.text.as_slice())?;
    Ok(())
}

/// The lines of a trace, which are its text where it has the form of a trace, or want of memory.
pub fn print_trace(alloc: Global, trace: &Trace) -> Result<Vec<u8>, AllocError>
    ensures lines { IfOk result (λ text. text.items ≡ trace_text trace.now) }
    ensures text { IsTrace trace.now → IfOk result (λ text. IsTextOf text.items trace.now) }
{
    let mut text = Vec::from_slice(alloc, b"revisions trace 1\n")?;
    for part in trace.parts.as_slice() {
        append_part(&mut text, part)?;
    }
    Ok(text)
}
