//! The trace of a program.
ghost use Rattle.std.specs.Prelude.{◌≤◌, IfOk, ◌≡◌, length};
ghost use Rattle.rev_num.specs.Limits.{most_fuel};
ghost use Rattle.rev_syntax.specs.View.{program as whole};
ghost use Rattle.rev_report.specs.Report.{output};
ghost use Rattle.revision_calculus.specs.Complete.{HasOutcome};
ghost use Rattle.audit_rules.specs.Traced.{HasTrace};
ghost use Rattle.mode_reports.specs.Answer.{SaysAs, Traces, setting, source_limit};
ghost use Rattle.mode_reports.specs.Stops.{Meets};
ghost use Rattle.mode_reports.specs.Traces.{text_of};

use crate::stop::Stop;
use crate::text::checked;
use code_traces::{TracedRun, trace_code};
use codegen::generate;
use rev_report::{Report, trace_report};
use rev_words::{Mode, Words};
use std::alloc::{AllocError, Global};
use trace_diagram::{Trace, print_trace};
use typed_programs::Typed;

/// The outcome and the trace of the program with the input numbers, the share and the fuel of the
/// words, both from one run of its code on one thread.
fn traced(alloc: Global, words: &Words, typed: &Typed) -> Result<TracedRun, AllocError>
    requires { words.now.fuel ≤ most_fuel }
    ensures outcome { IfOk result (λ t. HasOutcome
        (setting words.now (whole typed.now.expanded.program)) words.now.fuel t.outcome) }
    ensures trace { IfOk result (λ t. HasTrace
        (setting words.now (whole typed.now.expanded.program)) words.now.fuel t.trace) }
{
    let code = generate(alloc, typed)?;
    let numbers = Vec::from_slice(alloc, words.numbers.as_slice())?;
    trace_code(alloc, code, numbers, words.share, words.fuel)
}

/// The text of a trace, and nothing where there is none.
fn text_of(alloc: Global, trace: &Option<Trace>) -> Result<Vec<u8>, AllocError>
    ensures { IfOk result (λ text. text.items ≡ text_of trace.now) }
{
    match trace {
        Some(trace) => print_trace(alloc, trace),
        None => Ok(Vec::new(alloc)),
    }
}

/// The report of the trace of a program.
fn trace_program(alloc: Global, words: &Words, typed: &Typed) -> Result<Report, Stop>
    requires { words.now.fuel ≤ most_fuel }
    ensures { Meets output result (Traces words.now (whole typed.now.expanded.program)) }
{
    let run = traced(alloc, words, typed)?;
    let text = text_of(alloc, &run.trace)?;
    Ok(trace_report(alloc, text, &run.outcome)?)
}

/// What `trace` says of a text that is not too long: its trace, with the message and the status of
/// its outcome, or its first fault.
pub fn trace(alloc: Global, words: &Words, text: &[u8]) -> Result<Report, Stop>
    requires limit { length text.now ≤ source_limit }
    requires fuel { words.now.fuel ≤ most_fuel }
    ensures { Meets output result (SaysAs Mode.Trace words.now text.now) }
{
    let typed = checked(alloc, text)?;
    trace_program(alloc, words, &typed)
}
