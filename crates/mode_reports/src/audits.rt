//! The audit of a source that holds the text of a program and a trace behind it.
ghost use Rattle.std.specs.Prelude.{ℕ, ◌≤◌, IfOk, drop, length, take};
ghost use Rattle.rev_num.specs.Limits.{most_fuel};
ghost use Rattle.rev_syntax.specs.View.{program as whole};
ghost use Rattle.rev_report.specs.Report.{output};
ghost use Rattle.trace_diagram.specs.Traces.{IsTrace};
ghost use Rattle.mode_reports.specs.Answer.{AuditsParts, AuditsTrace, SaysAs, setting, source_limit};
ghost use Rattle.mode_reports.specs.Stops.{Meets};
ghost use Rattle.mode_reports.specs.Traces.{Judges, ReadsTrace, Splits};

use crate::sizes::SOURCE_LIMIT;
use crate::stop::Stop;
use crate::text::checked;
use audit_rules::Verdict;
use rev_audit::audit as audit_trace;
use rev_report::{Refusal, Report, agreed_report};
use rev_words::{Mode, Words};
use std::alloc::Global;
use trace_diagram::{Trace, TraceFault, read_trace, trace_start};
use typed_programs::Typed;

/// How many bytes the text before the trace has.
fn text_length(bytes: &[u8]) -> Result<usize, Stop>
    ensures splits { Meets
        (λ (at : ℕ). record { text = take at bytes.now; trace = drop at bytes.now })
        result (Splits bytes.now) }
    ensures inside { IfOk result (λ at. at ≤ length bytes.now) }
    ensures short { IfOk result (λ at. length (take at bytes.now) ≤ source_limit) }
{
    let at = trace_start(bytes);
    if at > SOURCE_LIMIT {
        return Err(Stop::Refused(Refusal::TooLong));
    }
    Ok(at)
}

/// The trace of which the bytes are the text.
fn read(alloc: Global, bytes: &[u8]) -> Result<Trace, Stop>
    ensures reads { Meets (λ t. t) result (ReadsTrace bytes.now) }
    ensures form { IfOk result (λ t. IsTrace t) }
{
    match read_trace(alloc, bytes) {
        Ok(trace) => Ok(trace),
        Err(TraceFault::Malformed { at }) => Err(Stop::Refused(Refusal::Trace { at })),
        Err(TraceFault::OutOfMemory) => Err(Stop::OutOfMemory),
    }
}

/// The report of the verdict of a trace.
fn judge(alloc: Global, words: &Words, typed: &Typed, trace: &Trace) -> Result<Report, Stop>
    requires form { IsTrace trace.now }
    requires fuel { words.now.fuel ≤ most_fuel }
    ensures { Meets output result
        (Judges (setting words.now (whole typed.now.expanded.program)) words.now.fuel trace.now) }
{
    let numbers = words.numbers.as_slice();
    match audit_trace(alloc, typed, numbers, words.share, words.fuel, trace)? {
        Verdict::Yes => Ok(agreed_report(alloc)?),
        Verdict::No { revision, .. } => Err(Stop::Refused(Refusal::Differs { revision })),
    }
}

/// The report of the audit of a trace of this program.
fn audit_bytes(alloc: Global, words: &Words, typed: &Typed, bytes: &[u8]) -> Result<Report, Stop>
    requires { words.now.fuel ≤ most_fuel }
    ensures { Meets output result
        (AuditsTrace words.now bytes.now (whole typed.now.expanded.program)) }
{
    let trace = read(alloc, bytes)?;
    judge(alloc, words, typed, &trace)
}

/// The report of the audit of a trace, with the text of its program.
fn audit_parts(alloc: Global, words: &Words, text: &[u8], trace: &[u8]) -> Result<Report, Stop>
    requires limit { length text.now ≤ source_limit }
    requires fuel { words.now.fuel ≤ most_fuel }
    ensures { Meets output result
        (AuditsParts words.now (record { text = text.now; trace = trace.now })) }
{
    let typed = checked(alloc, text)?;
    audit_bytes(alloc, words, &typed, trace)
}

/// What `audit` says of the text of a program with a trace behind it: that the trace is that of the
/// program's runs, or what is at fault first.
pub fn audit(alloc: Global, words: &Words, bytes: &[u8]) -> Result<Report, Stop>
    requires { words.now.fuel ≤ most_fuel }
    ensures { Meets output result (SaysAs Mode.Audit words.now bytes.now) }
{
    let at = text_length(bytes)?;
    audit_parts(alloc, words, &bytes[..at], &bytes[at..])
}
