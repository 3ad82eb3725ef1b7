//! How the writing of a report ends: out bytes first, then err bytes.

ghost use Rattle.std.specs.Prelude.{◌≡◌, false, Err, IfOk};
ghost use Rattle.rev_io.specs.Stream.{Stream, Took, TookSome};
ghost use Rattle.rev_num.specs.declared.outcome.Outcome.{Outcome as End};
ghost use Rattle.rev_report.specs.Refusals.{no_memory, shown};
ghost use Rattle.rev_report.specs.declared.refusal.Refusal.{Refusal as Refused};
ghost use Rattle.rev_report.specs.Outcome.{report as report_of};
ghost use Rattle.rev_report.specs.Report.{Output, output};
ghost use Rattle.rev_report.specs.Status.{no_memory_status};
ghost use Rattle.rev_top.specs.Delivery.{Delivered};
ghost use Rattle.rev_top.specs.Streaming.{DeliversRefusal, Streamed};
ghost use Rattle.mode_reports.specs.declared.stop.Stop.TheVariants as stops;

use mode_reports::Stop;
use rev_io::{Sink, SinkFault, write_all};
use rev_num::Outcome;
use rev_report::{Report, no_memory_message, outcome_bytes, refusal_bytes, status};
use std::alloc::{AllocError, Global};
use world_streams::StreamFault;

/// Writes the message for want of memory, as far as `err` takes it, and answers its status. For a
/// caller that has no memory for the words of a call.
pub fn out_of_memory<E: Sink>(err: &mut E) -> u8
    ensures status { result ≡ no_memory_status }
    ensures some { TookSome (E.stream err.old) no_memory (E.stream err.new) }
{
    let _ = write_all(err, no_memory_message());
    status::NO_MEMORY
}

/// Writes what is left of a report whose bytes for `out` are all written.
fn end_report<E: Sink>(err: &mut E, report: &Report) -> u8
    ensures { (o : Output) (old new : Stream) → output report.now ≡ o → Took old o.out new
        → Delivered o old new (E.stream err.old) (E.stream err.new) result }
{
    match write_all(err, report.err.as_slice()) {
        Err(SinkFault::Failed) => status::WRITE_FAULT,
        Err(SinkFault::OutOfMemory) => status::NO_MEMORY,
        Ok(()) => report.status,
    }
}

/// Writes a report.
pub(crate) fn deliver<O: Sink, E: Sink>(out: &mut O, err: &mut E, report: &Report) -> u8
    ensures { Delivered (output report.now) (O.stream out.old) (O.stream out.new)
        (E.stream err.old) (E.stream err.new) result }
{
    match write_all(out, report.out.as_slice()) {
        Err(SinkFault::Failed) => status::WRITE_FAULT,
        Err(SinkFault::OutOfMemory) => out_of_memory(err),
        Ok(()) => end_report(err, report),
    }
}

/// The report of a refusal.
pub(crate) fn refused(alloc: Global, stop: Stop) -> Result<Report, AllocError>
    ensures { IfOk result (λ r.
        (f : Refused) × (stop ≡ stops.Refused f) × (output r ≡ shown (Err f))) }
{
    match stop {
        Stop::Refused(refusal) => refusal_bytes(alloc, &refusal),
        Stop::OutOfMemory => Err(AllocError),
    }
}

/// Writes a refusal.
pub(crate) fn refuse<O: Sink, E: Sink>(alloc: Global, stop: Stop, out: &mut O, err: &mut E) -> u8
    ensures { DeliversRefusal stop (O.stream out.old) (O.stream out.new)
        (E.stream err.old) (E.stream err.new) result }
{
    match refused(alloc, stop) {
        Ok(report) => deliver(out, err, &report),
        Err(_) => out_of_memory(err),
    }
}

/// Ends a call whose run wrote the text of `main` to `out`: up to its end, or to where `out` failed
/// or memory ran out.
pub(crate) fn end_stream<E: Sink>(
    alloc: Global,
    streamed: Result<Outcome, StreamFault>,
    err: &mut E,
) -> u8
    ensures { (end : End) (old new : Stream) → Streamed end old new streamed
        → Delivered (report_of false end) old new (E.stream err.old) (E.stream err.new) result }
{
    match streamed {
        Ok(outcome) => match outcome_bytes(alloc, &outcome, false) {
            Ok(report) => end_report(err, &report),
            Err(_) => out_of_memory(err),
        },
        Err(StreamFault::Sink) => status::WRITE_FAULT,
        Err(StreamFault::OutOfMemory) => out_of_memory(err),
    }
}
