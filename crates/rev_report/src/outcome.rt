//! What is written of the outcome of a run.
ghost use Rattle.std.specs.Prelude.{◌≡◌, ◌++◌, IfOk, OnOk, codes, slice_get};
ghost use Rattle.std.specs.Fmt.{decimal};
ghost use Rattle.std.specs.List.{flat_map};
ghost use Rattle.rev_num.specs.Text.{path_text};
ghost use Rattle.rev_report.specs.Report.{output};
ghost use Rattle.rev_report.specs.Lines.{with_line_feed};
ghost use Rattle.rev_report.specs.Outcome as spec;

use crate::report::Report;
use crate::status;
use rev_num::{
    Cause, NumFault, Outcome, Path, Shown, Trap, Value, append_decimal, append_path, fault_name,
};
use std::alloc::{AllocError, Global};

/// Appends a value as `print` and `--values` show it. Where memory is wanting, nothing is said of
/// the text.
pub fn append_value(text: &mut Vec<u8>, value: &Value) -> Result<(), AllocError>
    ensures { OnOk result (text.new.items ≡ text.old.items ++ spec.value_text value.now) }
{
    match value {
        Value::Int(n) => append_decimal(text, *n),
        Value::Bool(true) => text.extend_from_slice(b"true"),
        Value::Bool(false) => text.extend_from_slice(b"false"),
        Value::Rev(None) => text.extend_from_slice(b"none"),
        Value::Rev(Some(path)) => append_path(text, path),
    }
}

/// Appends a location by its name, with its cell in brackets if it is one of an array.
fn append_place(text: &mut Vec<u8>, shown: &Shown) -> Result<(), AllocError>
    ensures { OnOk result (text.new.items
        ≡ text.old.items ++ spec.place_of shown.now.name shown.now.cell) }
{
    text.extend_from_slice(shown.name.as_slice())?;
    match shown.cell {
        None => Ok(()),
        Some(cell) => {
            text.push(b'[')?;
            append_decimal(text, cell as i64)?;
            text.push(b']')?;
            Ok(())
        }
    }
}

/// Appends the line of a value: its place, and what it is.
fn append_value_line(text: &mut Vec<u8>, shown: &Shown) -> Result<(), AllocError>
    ensures { OnOk result (text.new.items ≡ text.old.items ++ spec.value_line shown.now) }
{
    append_place(text, shown)?;
    text.extend_from_slice(b" = ")?;
    append_value(text, &shown.value)?;
    text.push(b'\n')?;
    Ok(())
}

fn append_values(text: &mut Vec<u8>, values: &[Shown]) -> Result<(), AllocError>
    ensures { OnOk result (text.new.items ≡ text.old.items ++ flat_map spec.value_line values.now) }
{
    for shown in values {
        append_value_line(text, shown)?;
    }
    Ok(())
}

/// What was printed, and behind it the values where they are asked for.
fn out_bytes(
    alloc: Global,
    text: &[u8],
    asked: bool,
    values: &[Shown],
) -> Result<Vec<u8>, AllocError>
    ensures { IfOk result (λ out. out.items ≡ text.now ++ spec.asked_lines asked values.now) }
{
    let mut out = Vec::from_slice(alloc, text)?;
    if asked {
        append_values(&mut out, values)?;
    }
    Ok(out)
}

/// Appends the place of the location of this number, if it is one of these.
fn append_location(text: &mut Vec<u8>, values: &[Shown], location: u32) -> Result<(), AllocError>
    ensures { OnOk result (text.new.items
        ≡ text.old.items ++ spec.place_text (slice_get values.now location)) }
{
    match values.get(location as usize) {
        None => Ok(()),
        Some(shown) => append_place(text, shown),
    }
}

/// Appends that the merge of the location of this number faulted, with its place if it is one of
/// these.
fn append_merge(
    text: &mut Vec<u8>,
    values: &[Shown],
    location: u32,
    fault: NumFault,
) -> Result<(), AllocError>
    ensures { OnOk result (text.new.items
        ≡ text.old.items ++ spec.merge_text values.now location fault) }
{
    text.extend_from_slice(b"merge of ")?;
    append_location(text, values, location)?;
    text.extend_from_slice(b": ")?;
    text.extend_from_slice(fault_name(fault))?;
    Ok(())
}

/// Appends the cause of a trap; of a merge with the place of its location, if it is one of these.
fn append_cause(text: &mut Vec<u8>, values: &[Shown], cause: Cause) -> Result<(), AllocError>
    ensures { OnOk result (text.new.items ≡ text.old.items ++ spec.cause_text values.now cause) }
{
    match cause {
        Cause::Overflow => text.extend_from_slice(b"overflow"),
        Cause::ZeroDivisor => text.extend_from_slice(b"zero divisor"),
        Cause::Index => text.extend_from_slice(b"index"),
        Cause::Assert => text.extend_from_slice(b"assert"),
        Cause::JoinNone => text.extend_from_slice(b"join of none"),
        Cause::CallDepth => text.extend_from_slice(b"call depth"),
        Cause::Spent => text.extend_from_slice(b"fuel spent"),
        Cause::Merge { location, fault } => append_merge(text, values, location, fault),
    }
}

fn append_line_number(text: &mut Vec<u8>, line: u32) -> Result<(), AllocError>
    ensures { OnOk result (text.new.items ≡ text.old.items
        ++ (codes " at line " ++ decimal line)) }
{
    text.extend_from_slice(b" at line ")?;
    append_decimal(text, line as i64)?;
    Ok(())
}

fn append_revision(text: &mut Vec<u8>, path: &Path) -> Result<(), AllocError>
    ensures { OnOk result (text.new.items ≡ text.old.items
        ++ (codes " in revision " ++ path_text path.now)) }
{
    text.extend_from_slice(b" in revision ")?;
    append_path(text, path)?;
    Ok(())
}

/// The message of a trap, with its line feed.
fn trap_message(alloc: Global, values: &[Shown], trap: &Trap) -> Result<Vec<u8>, AllocError>
    ensures { IfOk result (λ m. m.items
        ≡ with_line_feed (spec.trap_text values.now trap.now)) }
{
    let mut message = Vec::from_slice(alloc, b"trap: ")?;
    append_cause(&mut message, values, trap.cause)?;
    append_line_number(&mut message, trap.line)?;
    append_revision(&mut message, &trap.origin)?;
    message.push(b'\n')?;
    Ok(message)
}

/// The report of an outcome, with the values of `main` where they are asked for. A merge that
/// faulted is reported with the place of its location, if that is one of the values.
pub fn outcome_bytes(alloc: Global, outcome: &Outcome, values: bool) -> Result<Report, AllocError>
    ensures { IfOk result (λ r. output r ≡ spec.report values outcome.now) }
{
    match outcome {
        Outcome::Done {
            text,
            values: shown,
        } => Ok(Report {
            out: out_bytes(alloc, text.as_slice(), values, shown.as_slice())?,
            err: Vec::new(alloc),
            status: status::DONE,
        }),
        Outcome::Trapped {
            text,
            values: shown,
            trap,
        } => Ok(Report {
            out: out_bytes(alloc, text.as_slice(), values, shown.as_slice())?,
            err: trap_message(alloc, shown.as_slice(), trap)?,
            status: status::TRAPPED,
        }),
        Outcome::Twice => Ok(Report {
            out: Vec::new(alloc),
            err: Vec::from_slice(alloc, b"error: a revision was joined twice\n")?,
            status: status::TWICE,
        }),
    }
}
