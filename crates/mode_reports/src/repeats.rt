//! Runs of a program that take over what is kept of a run with other numbers.
ghost use Rattle.std.specs.Prelude.{◌≤◌, IfOk, List, length};
ghost use Rattle.rev_num.specs.Limits.{most_fuel};
ghost use Rattle.rev_syntax.specs.View.{program as whole};
ghost use Rattle.rev_report.specs.Report.{output};
ghost use Rattle.code_generation.specs.Generated.{code_of};
ghost use Rattle.code_memos.specs.Leaf.{Known};
ghost use Rattle.rev_record.specs.Memos.{IsMemoOf};
ghost use Rattle.revision_calculus.specs.Complete.{HasOutcome};
ghost use Rattle.rev_record.specs.MemoLaws.{MemoIn, ReusedIn};
ghost use Rattle.mode_reports.specs.Answer.{Repeats, SaysAs, code_run, code_run_before};
ghost use Rattle.mode_reports.specs.Answer.{setting, source_limit};
ghost use Rattle.mode_reports.specs.Stops.{Meets};

use crate::stop::Stop;
use crate::text::checked;
use codegen::generate;
use rev_record::{Memo, RepeatedRun, record_code, repeat_code};
use rev_report::{Report, reused_report};
use rev_words::{Mode, Words};
use std::alloc::{AllocError, Global};
use typed_programs::Typed;

/// What is kept of a run of the program with the input numbers of the run before.
fn recorded(alloc: Global, words: &Words, typed: &Typed) -> Result<Memo, AllocError>
    requires fuel { words.now.fuel ≤ most_fuel }
    requires before { length words.now.before ≤ 1024 }
    ensures { IfOk result (λ m. IsMemoOf
        (code_run_before words.now (code_of (whole typed.now.expanded.program))) words.now.fuel m) }
{
    let code = generate(alloc, typed)?;
    let before = Vec::from_slice(alloc, words.before.as_slice())?;
    record_code(alloc, code, before, words.share, words.fuel)
}

/// The outcome of the program with the input numbers, and how many of its leaf revisions have a
/// valid entry of that run.
fn repeated(alloc: Global, words: &Words, typed: &Typed) -> Result<RepeatedRun, AllocError>
    requires fuel { words.now.fuel ≤ most_fuel }
    requires before { length words.now.before ≤ 1024 }
    ensures outcome { IfOk result (λ r. HasOutcome
        (setting words.now (whole typed.now.expanded.program)) words.now.fuel r.outcome) }
    ensures reused { IfOk result (λ r. (es : List Known)
        × MemoIn (code_run_before words.now (code_of (whole typed.now.expanded.program)))
        words.now.fuel es
        × ReusedIn (code_run words.now (code_of (whole typed.now.expanded.program)))
        words.now.fuel es r.reused) }
{
    let memo = recorded(alloc, words, typed)?;
    let code = generate(alloc, typed)?;
    let numbers = Vec::from_slice(alloc, words.numbers.as_slice())?;
    repeat_code(alloc, code, numbers, words.share, words.fuel, &memo)
}

/// The report of a repeated run.
fn repeat_program(alloc: Global, words: &Words, typed: &Typed) -> Result<Report, Stop>
    requires fuel { words.now.fuel ≤ most_fuel }
    requires before { length words.now.before ≤ 1024 }
    ensures { Meets output result (Repeats words.now (whole typed.now.expanded.program)) }
{
    let run = repeated(alloc, words, typed)?;
    Ok(reused_report(alloc, run.reused, &run.outcome)?)
}

/// What `repeat` says of a text that is not too long: how many revisions were kept of the run
/// before and the report of the run, or the text's first fault.
pub fn repeat(alloc: Global, words: &Words, text: &[u8]) -> Result<Report, Stop>
    requires limit { length text.now ≤ source_limit }
    requires fuel { words.now.fuel ≤ most_fuel }
    requires before { length words.now.before ≤ 1024 }
    ensures { Meets output result (SaysAs Mode.Repeat words.now text.now) }
{
    let typed = checked(alloc, text)?;
    repeat_program(alloc, words, &typed)
}
