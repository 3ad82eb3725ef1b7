//! The report that belongs to the words and to what the source gives.
ghost use Rattle.std.specs.Prelude.{◌<◌, ◌≤◌, ◌^◌, ◌≡◌, ◌≢◌, IfOk, IfSome, Some, length, map};
ghost use Rattle.rev_num.specs.Limits.{most_fuel};
ghost use Rattle.rev_words.specs.declared.Mode.TheVariants as modes;
ghost use Rattle.rev_report.specs.Report.{output};
ghost use Rattle.merge_kernels.specs.Terms.{definition};
ghost use Rattle.mode_reports.specs.Answer.{Answers, Given, IsWithin};
ghost use Rattle.mode_reports.specs.Answer.{SaysAs, Takes, reads_of};
ghost use Rattle.rev_top.specs.Kernels.{HasChosenIn, KernelsOf, text_of};
ghost use Rattle.rev_top.specs.Making.{IsMade, said, without_run};
ghost use Rattle.rev_top.specs.Rans.{Holds, Leaves};
ghost use Rattle.mode_reports.specs.Stops.{Meets};

use crate::endings::refused;
use crate::made::Made;
use crate::runs::{load, order, run};
use hub_workers::Gate;
use merge_kernels::Kernel;
use mode_reports::sizes::{FILE_LIMIT, SOURCE_LIMIT};
use mode_reports::{Stop, audit, check, dis, emit, exec, repeat, replay, trace};
use rev_io::{Source, read_text};
use rev_report::Report;
use rev_words::{Mode, Words};
use std::alloc::{AllocError, Global};
use std::sync::Wait;
use std::thread::Threads;

/// A report without a run.
fn alone(report: Result<Report, Stop>) -> Result<Made, Stop>
    ensures { result ≡ without_run report }
{
    match report {
        Ok(report) => Ok(Made { report, ran: None }),
        Err(stop) => Err(stop),
    }
}

/// What the mode says of the bytes that it read.
fn say<R: Threads + Wait + Sync, G: Gate + Sync>(
    rt: &R,
    alloc: Global,
    words: &Words,
    bytes: &[u8],
    gate: &G,
    kernels: &[Kernel],
) -> Result<Made, Stop>
    requires mode { words.now.mode ≢ modes.Stream }
    requires limit { IsWithin (reads_of words.now.mode) (length bytes.now) }
    requires fuel { words.now.fuel ≤ most_fuel }
    requires workers { 1 ≤ words.now.workers }
    requires before { length words.now.before ≤ 1024 }
    ensures says { Meets said result (SaysAs words.now.mode words.now bytes.now) }
    ensures holds { IfOk result (λ m.
        Holds words.now.mode words.now bytes.now m.ran (output m.report)) }
    ensures kernels { IfOk result (λ m. HasChosenIn
        (text_of words.now.mode words.now bytes.now)
        (map (λ k. definition k.def) kernels.now) m.ran) }
{
    match words.mode {
        Mode::Run => run(rt, alloc, words, bytes, gate, kernels),
        Mode::Check => alone(check(alloc, words, bytes)),
        Mode::Load => load(rt, alloc, words, gate, kernels),
        Mode::Dis => alone(dis(alloc, bytes)),
        Mode::Exec => alone(exec(alloc, words, bytes)),
        Mode::Emit => alone(emit(alloc, bytes)),
        Mode::Trace => alone(trace(alloc, words, bytes)),
        Mode::Audit => alone(audit(alloc, words, bytes)),
        Mode::Replay => alone(replay(alloc, words, bytes)),
        Mode::Order => order(rt, alloc, words, bytes, gate, kernels),
        Mode::Stream => unreachable!(),
        Mode::Repeat => alone(repeat(alloc, words, bytes)),
    }
}

/// The most bytes that the source may have, where the mode reads it.
fn limit_of(mode: Mode) -> Option<usize>
    ensures limit { result ≡ reads_of mode }
    ensures small { IfSome result (λ n. n < 2 ^ 32) }
{
    match mode {
        Mode::Run => Some(SOURCE_LIMIT),
        Mode::Check => Some(SOURCE_LIMIT),
        Mode::Load => None,
        Mode::Dis => Some(FILE_LIMIT),
        Mode::Exec => Some(FILE_LIMIT),
        Mode::Emit => Some(SOURCE_LIMIT),
        Mode::Trace => Some(SOURCE_LIMIT),
        Mode::Audit => Some(FILE_LIMIT),
        Mode::Replay => Some(SOURCE_LIMIT),
        Mode::Order => Some(SOURCE_LIMIT),
        Mode::Stream => Some(SOURCE_LIMIT),
        Mode::Repeat => Some(SOURCE_LIMIT),
    }
}

/// All bytes up to the end of the source.
pub(crate) fn whole_source<S: Source>(
    alloc: Global,
    source: &mut S,
    limit: usize,
) -> Result<Vec<u8>, Stop>
    requires { limit < 2 ^ 32 }
    ensures meets { Meets (λ v. v.items) result
        (Given (Some limit) (S.stream source.old) (S.stream source.new)) }
    ensures takes { Takes (Some limit) (S.stream source.old) (S.stream source.new) }
    ensures within { IfOk result (λ v. length v.items ≤ limit) }
{
    Ok(read_text(alloc, source, limit)?)
}

/// What the mode reads of the source.
fn read_source<S: Source>(alloc: Global, mode: Mode, source: &mut S) -> Result<Vec<u8>, Stop>
    ensures meets { Meets (λ v. v.items) result
        (Given (reads_of mode) (S.stream source.old) (S.stream source.new)) }
    ensures takes { Takes (reads_of mode) (S.stream source.old) (S.stream source.new) }
    ensures within { IfOk result (λ v. IsWithin (reads_of mode) (length v.items)) }
{
    match limit_of(mode) {
        Some(limit) => whole_source(alloc, source, limit),
        None => Ok(Vec::new(alloc)),
    }
}

/// The answer to words that have a reading, of a mode that does not print as it runs.
fn answer_to<R: Threads + Wait + Sync, S: Source, G: Gate + Sync>(
    rt: &R,
    alloc: Global,
    words: &Words,
    source: &mut S,
    gate: &G,
    kernels: &[Kernel],
) -> Result<Made, Stop>
    requires mode { words.now.mode ≢ modes.Stream }
    requires fuel { words.now.fuel ≤ most_fuel }
    requires workers { 1 ≤ words.now.workers }
    requires before { length words.now.before ≤ 1024 }
    ensures meets { Meets said result
        (Answers (Some words.now) (S.stream source.old) (S.stream source.new)) }
    ensures leaves { IfOk result (λ m. Leaves
        (Some words.now) (S.stream source.old) (S.stream source.new) m.ran (Ok (output m.report))) }
    ensures kernels { IfOk result (λ m. KernelsOf
        (Some words.now) (S.stream source.old) (S.stream source.new)
        (map (λ k. definition k.def) kernels.now) m.ran) }
    ensures takes { Takes (reads_of words.now.mode) (S.stream source.old) (S.stream source.new) }
{
    let bytes = read_source(alloc, words.mode, source)?;
    say(rt, alloc, words, bytes.as_slice(), gate, kernels)
}

/// The report of a call that does not print as it runs, and the run of which it was made, unless
/// memory runs out.
pub fn make_report<R: Threads + Wait + Sync, S: Source, G: Gate + Sync>(
    rt: &R,
    alloc: Global,
    words: &Words,
    source: &mut S,
    gate: &G,
    kernels: &[Kernel],
) -> Result<Made, AllocError>
    requires mode { words.now.mode ≢ modes.Stream }
    requires fuel { words.now.fuel ≤ most_fuel }
    requires workers { 1 ≤ words.now.workers }
    requires before { length words.now.before ≤ 1024 }
    ensures report { IfOk result (λ m. IsMade (Some words.now)
        (S.stream source.old) (S.stream source.new) m.ran (output m.report)) }
    ensures kernels { IfOk result (λ m. KernelsOf
        (Some words.now) (S.stream source.old) (S.stream source.new)
        (map (λ k. definition k.def) kernels.now) m.ran) }
    ensures takes { Takes (reads_of words.now.mode) (S.stream source.old) (S.stream source.new) }
{
    match answer_to(rt, alloc, words, source, gate, kernels) {
        Ok(made) => Ok(made),
        Err(stop) => {
            let report = refused(alloc, stop)?;
            Ok(Made { report, ran: None })
        }
    }
}
