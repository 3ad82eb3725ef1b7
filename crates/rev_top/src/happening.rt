//! What happens in a call: its words are read, and then its report is made and written, or the program
//! prints as it runs.

ghost use Rattle.std.specs.Prelude.{◌≡◌, ◌≤◌, Some, length, map};
ghost use Rattle.std.specs.String.{string_bytes};
ghost use Rattle.rev_num.specs.Limits.{most_fuel};
ghost use Rattle.rev_words.specs.Reading.{reading};
ghost use Rattle.merge_kernels.specs.Terms.{definition};
ghost use Rattle.mode_reports.specs.Answer.{Takes, reads, reads_of};
ghost use Rattle.rev_top.specs.Kernels.{KernelsOf};
ghost use Rattle.rev_top.specs.Rans.{Happened};

use crate::answer::make_report;
use crate::endings::{deliver, out_of_memory, refuse};
use crate::streams::stream;
use hub_workers::Gate;
use merge_kernels::Kernel;
use mode_reports::Stop;
use rev_io::{Sink, Source};
use rev_words::{Mode, Words, read_words};
use std::alloc::Global;
use std::sync::Wait;
use std::thread::Threads;
use thread_runs::Ran;

/// What happens in a call whose words have a reading.
fn happen_to<R: Threads + Wait + Sync, S: Source, O: Sink, E: Sink, G: Gate + Sync>(
    rt: &R,
    alloc: Global,
    words: &Words,
    source: &mut S,
    out: &mut O,
    err: &mut E,
    gate: &G,
    ran: &mut Option<Ran>,
    kernels: &[Kernel],
) -> u8
    requires fuel { words.now.fuel ≤ most_fuel }
    requires workers { 1 ≤ words.now.workers }
    requires before { length words.now.before ≤ 1024 }
    ensures happened { Happened (Some words.now)
        (S.stream source.old) (S.stream source.new) (O.stream out.old) (O.stream out.new)
        (E.stream err.old) (E.stream err.new) ran.new result }
    ensures takes { Takes (reads_of words.now.mode) (S.stream source.old) (S.stream source.new) }
    ensures kernels { KernelsOf (Some words.now) (S.stream source.old) (S.stream source.new)
        (map (λ k. definition k.def) kernels.now) ran.new }
{
    if words.mode == Mode::Stream {
        *ran = None;
        return stream(alloc, words, source, out, err);
    }
    match make_report(rt, alloc, words, source, gate, kernels) {
        Ok(made) => {
            *ran = made.ran;
            deliver(out, err, &made.report)
        }
        Err(_) => {
            *ran = None;
            out_of_memory(err)
        }
    }
}

/// Does what the words say, and hands out the run by threads of which the report was made.
pub fn happen<R: Threads + Wait + Sync, S: Source, O: Sink, E: Sink, G: Gate + Sync>(
    rt: &R,
    alloc: Global,
    words: &[String],
    source: &mut S,
    out: &mut O,
    err: &mut E,
    gate: &G,
    ran: &mut Option<Ran>,
    kernels: &[Kernel],
) -> u8
    ensures happened { Happened (reading (map string_bytes words.now))
        (S.stream source.old) (S.stream source.new) (O.stream out.old) (O.stream out.new)
        (E.stream err.old) (E.stream err.new) ran.new result }
    ensures takes { Takes (reads (reading (map string_bytes words.now)))
        (S.stream source.old) (S.stream source.new) }
    ensures kernels { KernelsOf (reading (map string_bytes words.now))
        (S.stream source.old) (S.stream source.new)
        (map (λ k. definition k.def) kernels.now) ran.new }
{
    match read_words(alloc, words) {
        Ok(words) => happen_to(rt, alloc, &words, source, out, err, gate, ran, kernels),
        Err(fault) => {
            *ran = None;
            refuse(alloc, Stop::from(fault), out, err)
        }
    }
}
