//! What the modes write that do not report the outcome of a run alone.
ghost use Rattle.std.specs.Prelude.{◌≡◌, IfOk};
ghost use Rattle.std.specs.String.{string_bytes};
ghost use Rattle.rev_report.specs.Report.{done, output};
ghost use Rattle.rev_report.specs.Modes as spec;

use crate::{Report, outcome_bytes, status};
use rev_num::Outcome;
use std::alloc::{AllocError, Global};

/// The report of a call that is done and writes these bytes.
pub fn done_report(alloc: Global, out: Vec<u8>) -> Report
    ensures { output result ≡ done out.items }
{
    Report {
        out,
        err: Vec::new(alloc),
        status: status::DONE,
    }
}

/// The report of a text that keeps all rules.
pub fn accepted_report(alloc: Global) -> Result<Report, AllocError>
    ensures { IfOk result (λ r. output r ≡ spec.accepted) }
{
    Ok(done_report(alloc, Vec::from_slice(alloc, b"ok\n")?))
}

/// The report of a trace that is the run's own.
pub fn agreed_report(alloc: Global) -> Result<Report, AllocError>
    ensures { IfOk result (λ r. output r ≡ spec.agreed) }
{
    Ok(done_report(alloc, Vec::from_slice(alloc, b"yes\n")?))
}

/// The line that stands before what a generated program prints, without its line feed.
fn first_line(alloc: Global, seed: u32, size: u32) -> Result<String, AllocError>
    ensures { IfOk result (λ s. string_bytes s ≡ spec.first_line seed size) }
{
    format!(in alloc; "load seed {seed} size {size}")
}

/// The report with a line before what it writes on standard output.
fn behind(line: String, report: Report) -> Result<Report, AllocError>
    ensures { IfOk result (λ r. output r ≡ spec.behind (string_bytes line) (output report)) }
{
    let mut out = line.into_bytes();
    out.push(b'\n')?;
    out.extend_from_slice(report.out.as_slice())?;
    Ok(Report {
        out,
        err: report.err,
        status: report.status,
    })
}

/// The report of the outcome of the program that is generated from a seed and a size, behind a line
/// that names both. Where a revision was joined twice, nothing is written on standard output.
pub fn summary_report(
    alloc: Global,
    seed: u32,
    size: u32,
    outcome: &Outcome,
) -> Result<Report, AllocError>
    ensures { IfOk result (λ r. output r ≡ spec.summary seed size outcome.now) }
{
    let report = outcome_bytes(alloc, outcome, false)?;
    match outcome {
        Outcome::Done { .. } => behind(first_line(alloc, seed, size)?, report),
        Outcome::Trapped { .. } => behind(first_line(alloc, seed, size)?, report),
        Outcome::Twice => Ok(report),
    }
}

/// The line that tells how many revisions were kept of the run before, without its line feed.
fn reused_line(alloc: Global, count: u64) -> Result<String, AllocError>
    ensures { IfOk result (λ s. string_bytes s ≡ spec.reused_line count) }
{
    format!(in alloc; "reused {count}")
}

/// The report of the outcome of a repeated run, behind a line that tells how many revisions were
/// kept of the run before. Where a revision was joined twice, nothing is written on standard output.
pub fn reused_report(alloc: Global, count: u64, outcome: &Outcome) -> Result<Report, AllocError>
    ensures { IfOk result (λ r. output r ≡ spec.reused count outcome.now) }
{
    let report = outcome_bytes(alloc, outcome, false)?;
    match outcome {
        Outcome::Done { .. } => behind(reused_line(alloc, count)?, report),
        Outcome::Trapped { .. } => behind(reused_line(alloc, count)?, report),
        Outcome::Twice => Ok(report),
    }
}

/// The report of an outcome, with the text of a trace in place of what `main` printed. Where a
/// revision was joined twice, nothing is written on standard output.
pub fn trace_report(alloc: Global, trace: Vec<u8>, outcome: &Outcome) -> Result<Report, AllocError>
    ensures { IfOk result (λ r. output r ≡ spec.traced trace.items outcome.now) }
{
    let report = outcome_bytes(alloc, outcome, false)?;
    match outcome {
        Outcome::Done { .. } => Ok(done_report(alloc, trace)),
        Outcome::Trapped { .. } => Ok(Report {
            out: trace,
            err: report.err,
            status: report.status,
        }),
        Outcome::Twice => Ok(report),
    }
}
