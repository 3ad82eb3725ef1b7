//! Runs of the code in a code file.
ghost use Rattle.std.specs.Prelude.{◌≤◌};
ghost use Rattle.rev_num.specs.Limits.{most_fuel};
ghost use Rattle.rev_report.specs.Report.{output};
ghost use Rattle.mode_reports.specs.Answer.{RunsCode, SaysAs};
ghost use Rattle.mode_reports.specs.Stops.{Meets};

use crate::code::checked_code;
use crate::stop::Stop;
use code_runs::run_code;
use code_verifier::Verified;
use rev_report::{Report, outcome_bytes};
use rev_words::{Mode, Words};
use std::alloc::Global;

/// The report of a run of the code, with the values of `main` where they are asked for.
fn exec_code(alloc: Global, words: &Words, code: Verified) -> Result<Report, Stop>
    requires { words.now.fuel ≤ most_fuel }
    ensures { Meets output result (RunsCode words.now code.code) }
{
    let numbers = Vec::from_slice(alloc, words.numbers.as_slice())?;
    let outcome = run_code(alloc, code, numbers, words.share, words.fuel)?;
    Ok(outcome_bytes(alloc, &outcome, words.values)?)
}

/// What `exec` says of a code file: the report of a run of its code, or its first fault.
pub fn exec(alloc: Global, words: &Words, bytes: &[u8]) -> Result<Report, Stop>
    requires { words.now.fuel ≤ most_fuel }
    ensures { Meets output result (SaysAs Mode.Exec words.now bytes.now) }
{
    let code = checked_code(alloc, bytes)?;
    exec_code(alloc, words, code)
}
