//! Programs that print as they run.

ghost use Rattle.std.specs.Prelude.{◌≡◌, ◌≤◌, length, None, Some};
ghost use Rattle.rev_num.specs.Limits.{most_fuel};
ghost use Rattle.rev_syntax.specs.View.{program as whole};
ghost use Rattle.affine_check.specs.Affine.{IsAffine};
ghost use Rattle.rev_words.specs.declared.Mode.TheVariants as modes;
ghost use Rattle.mode_reports.specs.Affine.{KeepsAffine, ReadsAffine, report_of_affine};
ghost use Rattle.mode_reports.specs.Answer.{Given, Takes};
ghost use Rattle.mode_reports.specs.declared.sizes.TheConstants.{SOURCE_LIMIT as source_limit};
ghost use Rattle.rev_top.specs.Rans.{Happened};
ghost use Rattle.mode_reports.specs.Stages.{Then};
ghost use Rattle.mode_reports.specs.Stops.{Meets, stop_of};
ghost use Rattle.rev_top.specs.Streaming.{DeliversOutcome, StreamsOutcome};

use crate::answer::whole_source;
use crate::endings::{end_stream, refuse};
use affine_check::{AffineFault, affine};
use codegen::generate;
use mode_reports::sizes::SOURCE_LIMIT;
use mode_reports::{Stop, checked, fault_at};
use program_code::never_laws;
use rev_io::{Sink, Source};
use rev_num::Outcome;
use rev_report::TextFault;
use rev_words::Words;
use std::alloc::Global;
use typed_programs::Typed;
use world_streams::{StreamFault, stream_code};

/// How a program breaks the affine rule.
fn of_affine(text: &[u8], fault: AffineFault) -> Stop
    requires { length text.now ≤ source_limit }
    ensures { result ≡ stop_of (report_of_affine text.now fault) }
{
    match fault {
        AffineFault::Copied { at } => fault_at(text, at, TextFault::Copied),
        AffineFault::Stored { at } => fault_at(text, at, TextFault::Stored),
        AffineFault::UsedTwice { at } => fault_at(text, at, TextFault::UsedTwice),
        AffineFault::InLoop { at } => fault_at(text, at, TextFault::InLoop),
        AffineFault::OutOfMemory => Stop::OutOfMemory,
    }
}

/// The program, if it keeps the affine rule.
fn affine_of(alloc: Global, text: &[u8], typed: Typed) -> Result<Typed, Stop>
    requires { length text.now ≤ source_limit }
    ensures { Meets (λ t. whole t.expanded.program) result
        (KeepsAffine text.now (whole typed.expanded.program)) }
{
    match affine(alloc, &typed) {
        Ok(()) => Ok(typed),
        Err(fault) => Err(of_affine(text, fault)),
    }
}

/// The program that a text is, if it keeps all rules and the affine rule.
fn affine_text(alloc: Global, text: &[u8]) -> Result<Typed, Stop>
    requires { length text.now ≤ source_limit }
    ensures { Meets (λ t. whole t.expanded.program) result (ReadsAffine text.now) }
{
    let typed = checked(alloc, text)?;
    affine_of(alloc, text, typed)
}

/// The program of the source's text, if it keeps all rules and the affine rule.
fn affine_source<S: Source>(alloc: Global, source: &mut S) -> Result<Typed, Stop>
    ensures meets { Meets (λ t. whole t.expanded.program) result
        (Then (Given (Some source_limit) (S.stream source.old) (S.stream source.new))
        ReadsAffine) }
    ensures takes { Takes (Some source_limit) (S.stream source.old) (S.stream source.new) }
{
    let text = whole_source(alloc, source, SOURCE_LIMIT)?;
    affine_text(alloc, text.as_slice())
}

/// Runs a program that keeps the affine rule. `out` gets the text of `main` leg by leg.
fn run_streaming<O: Sink>(
    alloc: Global,
    words: &Words,
    typed: &Typed,
    out: &mut O,
) -> Result<Outcome, StreamFault>
    requires fuel { words.now.fuel ≤ most_fuel }
    requires affine { IsAffine (whole typed.now.expanded.program) }
    ensures { StreamsOutcome words.now (whole typed.now.expanded.program)
        (O.stream out.old) (O.stream out.new) result }
{
    never_laws();
    let code = generate(alloc, typed)?;
    let numbers = Vec::from_slice(alloc, words.numbers.as_slice())?;
    stream_code(alloc, code, numbers, words.share, words.fuel, out)
}

/// The same, and what is left to be written behind the run.
fn stream_program<O: Sink, E: Sink>(
    alloc: Global,
    words: &Words,
    typed: &Typed,
    out: &mut O,
    err: &mut E,
) -> u8
    requires fuel { words.now.fuel ≤ most_fuel }
    requires affine { IsAffine (whole typed.now.expanded.program) }
    ensures { DeliversOutcome words.now (whole typed.now.expanded.program)
        (O.stream out.old) (O.stream out.new) (E.stream err.old) (E.stream err.new) result }
{
    let streamed = run_streaming(alloc, words, typed, out);
    end_stream(alloc, streamed, err)
}

/// What `stream` does: a program that keeps the affine rule prints as it runs.
pub fn stream<S: Source, O: Sink, E: Sink>(
    alloc: Global,
    words: &Words,
    source: &mut S,
    out: &mut O,
    err: &mut E,
) -> u8
    requires mode { words.now.mode ≡ modes.Stream }
    requires fuel { words.now.fuel ≤ most_fuel }
    ensures happened { Happened (Some words.now)
        (S.stream source.old) (S.stream source.new) (O.stream out.old) (O.stream out.new)
        (E.stream err.old) (E.stream err.new) None result }
    ensures takes { Takes (Some source_limit) (S.stream source.old) (S.stream source.new) }
{
    match affine_source(alloc, source) {
        Ok(typed) => stream_program(alloc, words, &typed, out, err),
        Err(stop) => refuse(alloc, stop, out, err),
    }
}
