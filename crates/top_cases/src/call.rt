//! Calls over sources and sinks in memory.

use crate::meeting::Meeting;
use hub_workers::{Gate, OpenGate};
use merge_kernels::Kernel;
use rev_io::{CalmSink, CalmSource, MemSink, MemSource, Sink, Source};
use rev_top::rev_main;
use std::alloc::{AllocError, Global};
use std::sync::Wait;
use std::thread::Threads;
use thread_runs::Ran;

/// What a call answers, and what it leaves.
#[derive(Drop)]
pub struct Answer {
    pub status: u8,
    pub out: Vec<u8>,
    pub err: Vec<u8>,
    pub ran: Option<Ran>,
    /// Whether the call of the source that fails is still to come.
    pub is_unread: bool,
    /// Whether all revisions that were to meet have met.
    pub has_met: bool,
}

/// How a call is made.
#[derive(Clone, Copy)]
pub enum Manner {
    /// No stream fails.
    Calm,
    /// The source gives so many bytes at a time, and fails at this call of it.
    Reads { step: usize, call: u64 },
    /// Both outputs take so many bytes at a time, and fail at this call of them.
    Writes { step: usize, call: u64 },
    /// The same, but the standard error never fails.
    Prints { step: usize, call: u64 },
    /// Revisions wait for others.
    Meets([(u32, u32); 2]),
}

/// The status of a call, and its run.
fn called<R: AllocGlobal + Threads + Wait + Sync, S: Source, O: Sink, E: Sink, G: Gate + Sync>(
    rt: &R,
    words: &[String],
    source: &mut S,
    out: &mut O,
    err: &mut E,
    gate: &G,
    kernels: &[Kernel],
) -> (u8, Option<Ran>) {
    let mut ran = None;
    let status = rev_main(rt, words, source, out, err, gate, &mut ran, kernels);
    (status, ran)
}

/// An answer with these bytes.
fn answer_of(
    alloc: Global,
    call: (u8, Option<Ran>),
    out: &[u8],
    err: &[u8],
) -> Result<Answer, AllocError> {
    let (status, ran) = call;
    Ok(Answer {
        status,
        out: Vec::from_slice(alloc, out)?,
        err: Vec::from_slice(alloc, err)?,
        ran,
        is_unread: false,
        has_met: true,
    })
}

/// What a call answers whose outputs never fail.
fn answer_behind<R: AllocGlobal + Threads + Wait + Sync, S: Source, G: Gate + Sync>(
    rt: &R,
    words: &[String],
    source: &mut S,
    gate: &G,
    kernels: &[Kernel],
) -> Result<Answer, AllocError> {
    let mut out = CalmSink::new(rt.alloc());
    let mut err = CalmSink::new(rt.alloc());
    let call = called(rt, words, source, &mut out, &mut err, gate, kernels);
    answer_of(rt.alloc(), call, out.bytes(), err.bytes())
}

/// What a call answers.
pub fn calm_answer<R: AllocGlobal + Threads + Wait + Sync>(
    rt: &R,
    words: &[String],
    source: Vec<u8>,
    kernels: &[Kernel],
) -> Result<Answer, AllocError> {
    let mut source = CalmSource::new(source);
    answer_behind(rt, words, &mut source, &OpenGate, kernels)
}

/// What a call answers whose source gives so many bytes at a time, and fails at this call.
fn answer_reading<R: AllocGlobal + Threads + Wait + Sync>(
    rt: &R,
    words: &[String],
    source: Vec<u8>,
    step: usize,
    fails: u64,
    kernels: &[Kernel],
) -> Result<Answer, AllocError> {
    let mut source = MemSource::new(source, step.max(1), vec![in rt.alloc(); fails]?);
    let mut answer = answer_behind(rt, words, &mut source, &OpenGate, kernels)?;
    answer.is_unread = source.read(&mut [0; 4]).is_err();
    Ok(answer)
}

/// A sink that takes so many bytes at a time, and fails at this call, if one is named.
fn sink_of(alloc: Global, step: usize, fails: Option<u64>) -> Result<MemSink, AllocError> {
    let fails = match fails {
        Some(call) => vec![in alloc; call]?,
        None => Vec::new(alloc),
    };
    Ok(MemSink::new(alloc, step.max(1), fails))
}

/// What a call answers whose outputs, the standard one first, take so many bytes at a time, and
/// fail at these calls.
fn answer_writing<R: AllocGlobal + Threads + Wait + Sync>(
    rt: &R,
    words: &[String],
    source: Vec<u8>,
    step: usize,
    fails: [Option<u64>; 2],
    kernels: &[Kernel],
) -> Result<Answer, AllocError> {
    let mut source = CalmSource::new(source);
    let [out, err] = fails;
    let mut out = sink_of(rt.alloc(), step, out)?;
    let mut err = sink_of(rt.alloc(), step, err)?;
    let call = called(
        rt,
        words,
        &mut source,
        &mut out,
        &mut err,
        &OpenGate,
        kernels,
    );
    answer_of(rt.alloc(), call, out.bytes(), err.bytes())
}

/// What a call answers in which revisions wait for one another.
fn answer_meeting<R: AllocGlobal + Threads + Wait + Sync>(
    rt: &R,
    words: &[String],
    source: Vec<u8>,
    pairs: [(u32, u32); 2],
    kernels: &[Kernel],
) -> Result<Answer, AllocError> {
    let mut source = CalmSource::new(source);
    let gate = Meeting::new(pairs);
    let mut answer = answer_behind(rt, words, &mut source, &gate, kernels)?;
    answer.has_met = gate.has_met();
    Ok(answer)
}

/// What a call answers that is made in this manner.
pub fn answer_by<R: AllocGlobal + Threads + Wait + Sync>(
    rt: &R,
    words: &[String],
    source: Vec<u8>,
    manner: Manner,
    kernels: &[Kernel],
) -> Result<Answer, AllocError> {
    match manner {
        Manner::Calm => calm_answer(rt, words, source, kernels),
        Manner::Reads { step, call } => answer_reading(rt, words, source, step, call, kernels),
        Manner::Writes { step, call } => {
            answer_writing(rt, words, source, step, [Some(call), Some(call)], kernels)
        },
        Manner::Prints { step, call } => {
            answer_writing(rt, words, source, step, [Some(call), None], kernels)
        },
        Manner::Meets(pairs) => answer_meeting(rt, words, source, pairs, kernels),
    }
}
