//! What `order` writes.
ghost use Rattle.std.specs.Prelude.{◌≡◌, ◌++◌, IfOk, OnOk};
ghost use Rattle.std.specs.List.{flat_map};
ghost use Rattle.rev_report.specs.Report.{output};
ghost use Rattle.rev_report.specs.Modes.{behind_comma, ordered, schedule_text};

use crate::{Report, outcome_bytes};
use rev_num::{Outcome, append_decimal};
use std::alloc::{AllocError, Global};

/// Appends each number with a comma in front of it.
fn append_behind_commas(text: &mut Vec<u8>, numbers: &[u32]) -> Result<(), AllocError>
    ensures { OnOk result (text.new.items ≡ text.old.items ++ flat_map behind_comma numbers.now) }
{
    for number in numbers {
        text.push(b',')?;
        append_decimal(text, *number as i64)?;
    }
    Ok(())
}

/// Appends the numbers of a schedule, with a comma between two of them.
fn append_schedule(text: &mut Vec<u8>, schedule: &[u32]) -> Result<(), AllocError>
    ensures { OnOk result (text.new.items ≡ text.old.items ++ schedule_text schedule.now) }
{
    match schedule {
        [] => Ok(()),
        [first, rest @ ..] => {
            append_decimal(text, *first as i64)?;
            append_behind_commas(text, rest)
        }
    }
}

/// The report of an outcome, with the schedule of its run in place of what `main` printed.
pub fn order_report(
    alloc: Global,
    schedule: &[u32],
    outcome: &Outcome,
) -> Result<Report, AllocError>
    ensures { IfOk result (λ r. output r ≡ ordered schedule.now outcome.now) }
{
    let report = outcome_bytes(alloc, outcome, false)?;
    let mut out = Vec::new(alloc);
    append_schedule(&mut out, schedule)?;
    out.push(b'\n')?;
    Ok(Report {
        out,
        err: report.err,
        status: report.status,
    })
}
