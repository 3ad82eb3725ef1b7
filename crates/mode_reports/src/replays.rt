//! Runs of a program that begin with a schedule.
ghost use Rattle.std.specs.Prelude.{◌≡◌, ◌≤◌, length};
ghost use Rattle.rev_num.specs.Limits.{most_fuel};
ghost use Rattle.rev_syntax.specs.View.{program as whole};
ghost use Rattle.rev_report.specs.Report.{output};
ghost use Rattle.mode_reports.specs.Answer.{Replays, SaysAs, source_limit};
ghost use Rattle.mode_reports.specs.Schedules.{report_of_replay};
ghost use Rattle.mode_reports.specs.Stops.{Meets, stop_of};

use crate::stop::Stop;
use crate::text::checked;
use code_runs::replay_code;
use codegen::generate;
use rev_report::{Refusal, Report, outcome_bytes};
use rev_words::{Mode, Words};
use std::alloc::Global;
use typed_programs::Typed;
use world_runs::ReplayFault;

/// Why a schedule is refused.
fn of_replay(fault: ReplayFault) -> Stop
    ensures { result ≡ stop_of (report_of_replay fault) }
{
    match fault {
        ReplayFault::Illegal { at, revision } => Stop::Refused(Refusal::Schedule {
            entry: at as u64,
            revision,
        }),
        ReplayFault::OutOfMemory => Stop::OutOfMemory,
    }
}

/// The report of a run that begins with the schedule, with the values of `main` where they are
/// asked for.
fn replay_program(alloc: Global, words: &Words, typed: &Typed) -> Result<Report, Stop>
    requires { words.now.fuel ≤ most_fuel }
    ensures { Meets output result (Replays words.now (whole typed.now.expanded.program)) }
{
    let code = generate(alloc, typed)?;
    let numbers = Vec::from_slice(alloc, words.numbers.as_slice())?;
    let schedule = words.schedule.as_slice();
    match replay_code(alloc, code, numbers, words.share, words.fuel, schedule) {
        Ok(outcome) => Ok(outcome_bytes(alloc, &outcome, words.values)?),
        Err(fault) => Err(of_replay(fault)),
    }
}

/// What `replay` says of a text that is not too long: the report of a run that begins with the
/// schedule of the words, or the first fault of the text, and else of the schedule.
pub fn replay(alloc: Global, words: &Words, text: &[u8]) -> Result<Report, Stop>
    requires limit { length text.now ≤ source_limit }
    requires fuel { words.now.fuel ≤ most_fuel }
    ensures { Meets output result (SaysAs Mode.Replay words.now text.now) }
{
    let typed = checked(alloc, text)?;
    replay_program(alloc, words, &typed)
}
