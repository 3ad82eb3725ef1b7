//! The modes whose runs go by threads.
ghost use Rattle.std.specs.Prelude.{◌≤◌, IfOk, Some, length, map};
ghost use Rattle.rev_num.specs.Limits.{most_fuel};
ghost use Rattle.rev_syntax.specs.View.{program as whole};
ghost use Rattle.rev_words.specs.Load as spec;
ghost use Rattle.code_generation.specs.Generated.{code_of};
ghost use Rattle.revision_calculus.specs.Complete.{HasOutcome};
ghost use Rattle.merge_kernels.specs.Terms.{definition};
ghost use Rattle.thread_runs.specs.Runs.{IsRunOf};
ghost use Rattle.mode_reports.specs.Answer.{code_run, setting};
ghost use Rattle.mode_reports.specs.declared.sizes.TheConstants.{SOURCE_LIMIT as source_limit};
ghost use Rattle.rev_top.specs.Kernels.{HasChosen, HasChosenIn};
ghost use Rattle.rev_top.specs.Making.{RunsBy, RunsText, told};
ghost use Rattle.rev_top.specs.Rans.{of_load, of_order, of_run};
ghost use Rattle.mode_reports.specs.Stops.{Meets};
ghost use Rattle.mode_reports.specs.Texts.{Checks};

use crate::made::Made;
use codegen::generate;
use hub_workers::Gate;
use kernel_choices::choose_kernels;
use merge_kernels::{Kernel, KernelPlan};
use mode_reports::{Stop, checked};
use rev_report::{order_report, outcome_bytes, summary_report};
use rev_words::{Words, load_text};
use std::alloc::{AllocError, Global};
use std::sync::Wait;
use std::thread::Threads;
use thread_runs::{Ran, run_threads};
use typed_programs::Typed;

/// A run of the program by threads, with the input numbers, the share and the fuel of the words.
fn run_of<R: Threads + Wait + Sync, G: Gate + Sync>(
    rt: &R,
    alloc: Global,
    words: &Words,
    typed: &Typed,
    gate: &G,
    kernels: &[Kernel],
) -> Result<Ran, AllocError>
    requires fuel { words.now.fuel ≤ most_fuel }
    requires workers { 1 ≤ words.now.workers }
    ensures run { IfOk result (λ r. IsRunOf
        (code_run words.now (code_of (whole typed.now.expanded.program))) words.now.fuel r) }
    ensures outcome { IfOk result (λ r. HasOutcome
        (setting words.now (whole typed.now.expanded.program)) words.now.fuel r.outcome) }
    ensures kernels { IfOk result (λ r. HasChosen (whole typed.now.expanded.program)
        (map (λ k. definition k.def) kernels.now) (Some r)) }
{
    let code = generate(alloc, typed)?;
    let numbers = Vec::from_slice(alloc, words.numbers.as_slice())?;
    let choices = choose_kernels(alloc, typed, kernels)?;
    let plan = KernelPlan::new(choices, kernels);
    run_threads(
        rt,
        alloc,
        code,
        numbers,
        words.share,
        words.fuel,
        words.workers,
        words.segments,
        gate,
        plan,
    )
}

/// The report of a run, with the values of `main` where they are asked for.
fn run_program<R: Threads + Wait + Sync, G: Gate + Sync>(
    rt: &R,
    alloc: Global,
    words: &Words,
    typed: &Typed,
    gate: &G,
    kernels: &[Kernel],
) -> Result<Made, Stop>
    requires fuel { words.now.fuel ≤ most_fuel }
    requires workers { 1 ≤ words.now.workers }
    ensures made { Meets told result
        (RunsBy words.now (of_run words.now) (whole typed.now.expanded.program)) }
    ensures kernels { IfOk result (λ m. HasChosen (whole typed.now.expanded.program)
        (map (λ k. definition k.def) kernels.now) m.ran) }
{
    let ran = run_of(rt, alloc, words, typed, gate, kernels)?;
    let report = outcome_bytes(alloc, ran.outcome(), words.values)?;
    Ok(Made {
        report,
        ran: Some(ran),
    })
}

/// The report of a run behind the line that names seed and size.
fn load_program<R: Threads + Wait + Sync, G: Gate + Sync>(
    rt: &R,
    alloc: Global,
    words: &Words,
    typed: &Typed,
    gate: &G,
    kernels: &[Kernel],
) -> Result<Made, Stop>
    requires fuel { words.now.fuel ≤ most_fuel }
    requires workers { 1 ≤ words.now.workers }
    ensures made { Meets told result
        (RunsBy words.now (of_load words.now) (whole typed.now.expanded.program)) }
    ensures kernels { IfOk result (λ m. HasChosen (whole typed.now.expanded.program)
        (map (λ k. definition k.def) kernels.now) m.ran) }
{
    let ran = run_of(rt, alloc, words, typed, gate, kernels)?;
    let report = summary_report(alloc, words.seed, words.size, ran.outcome())?;
    Ok(Made {
        report,
        ran: Some(ran),
    })
}

/// The schedule of a run, with the message and the status of its outcome.
fn order_program<R: Threads + Wait + Sync, G: Gate + Sync>(
    rt: &R,
    alloc: Global,
    words: &Words,
    typed: &Typed,
    gate: &G,
    kernels: &[Kernel],
) -> Result<Made, Stop>
    requires fuel { words.now.fuel ≤ most_fuel }
    requires workers { 1 ≤ words.now.workers }
    ensures made { Meets told result
        (RunsBy words.now of_order (whole typed.now.expanded.program)) }
    ensures kernels { IfOk result (λ m. HasChosen (whole typed.now.expanded.program)
        (map (λ k. definition k.def) kernels.now) m.ran) }
{
    let ran = run_of(rt, alloc, words, typed, gate, kernels)?;
    let report = order_report(alloc, ran.schedule(), ran.outcome())?;
    Ok(Made {
        report,
        ran: Some(ran),
    })
}

/// What `run` says of a text that is not too long: the report of a run, or the text's first fault.
pub fn run<R: Threads + Wait + Sync, G: Gate + Sync>(
    rt: &R,
    alloc: Global,
    words: &Words,
    text: &[u8],
    gate: &G,
    kernels: &[Kernel],
) -> Result<Made, Stop>
    requires limit { length text.now ≤ source_limit }
    requires fuel { words.now.fuel ≤ most_fuel }
    requires workers { 1 ≤ words.now.workers }
    ensures made { Meets told result (RunsText words.now (of_run words.now) text.now) }
    ensures kernels { IfOk result (λ m. HasChosenIn text.now
        (map (λ k. definition k.def) kernels.now) m.ran) }
{
    let typed = checked(alloc, text)?;
    run_program(rt, alloc, words, &typed, gate, kernels)
}

/// The program that `load` makes.
fn loaded(alloc: Global, words: &Words) -> Result<Typed, Stop>
    ensures { Meets (λ t. whole t.expanded.program) result
        (Checks (spec.load_text words.now.seed words.now.size)) }
{
    let text = load_text(alloc, words.seed, words.size)?;
    checked(alloc, text.as_slice())
}

/// What `load` says: the report of a run of the program that it makes, or that text's first fault.
pub fn load<R: Threads + Wait + Sync, G: Gate + Sync>(
    rt: &R,
    alloc: Global,
    words: &Words,
    gate: &G,
    kernels: &[Kernel],
) -> Result<Made, Stop>
    requires fuel { words.now.fuel ≤ most_fuel }
    requires workers { 1 ≤ words.now.workers }
    ensures made { Meets told result (RunsText words.now
        (of_load words.now) (spec.load_text words.now.seed words.now.size)) }
    ensures kernels { IfOk result (λ m. HasChosenIn
        (spec.load_text words.now.seed words.now.size)
        (map (λ k. definition k.def) kernels.now) m.ran) }
{
    let typed = loaded(alloc, words)?;
    load_program(rt, alloc, words, &typed, gate, kernels)
}

/// What `order` says of a text that is not too long: the schedule of a run, with the message and
/// the status of its outcome, or the text's first fault.
pub fn order<R: Threads + Wait + Sync, G: Gate + Sync>(
    rt: &R,
    alloc: Global,
    words: &Words,
    text: &[u8],
    gate: &G,
    kernels: &[Kernel],
) -> Result<Made, Stop>
    requires limit { length text.now ≤ source_limit }
    requires fuel { words.now.fuel ≤ most_fuel }
    requires workers { 1 ≤ words.now.workers }
    ensures made { Meets told result (RunsText words.now of_order text.now) }
    ensures kernels { IfOk result (λ m. HasChosenIn text.now
        (map (λ k. definition k.def) kernels.now) m.ran) }
{
    let typed = checked(alloc, text)?;
    order_program(rt, alloc, words, &typed, gate, kernels)
}
