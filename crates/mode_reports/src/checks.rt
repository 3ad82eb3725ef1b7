//! Reports that need no run: that a program keeps all rules, and the listing of code.
ghost use Rattle.std.specs.Prelude.{◌≤◌, length};
ghost use Rattle.rev_syntax.specs.View.{program as whole};
ghost use Rattle.rev_words.specs.declared.Words.{Words};
ghost use Rattle.rev_report.specs.Report.{output};
ghost use Rattle.mode_reports.specs.Answer.{Accepts, Lists, SaysAs, source_limit};
ghost use Rattle.mode_reports.specs.Stops.{Meets};

use crate::code::checked_code;
use crate::stop::Stop;
use crate::text::checked;
use code_listing::disassemble;
use code_verifier::Verified;
use rev_report::{Report, accepted_report, done_report};
use rev_words::{Mode, Words};
use std::alloc::Global;
use typed_programs::Typed;

/// The report of a program that keeps all rules.
fn accept(alloc: Global, typed: &Typed) -> Result<Report, Stop>
    ensures { Meets output result (Accepts (whole typed.now.expanded.program)) }
{
    Ok(accepted_report(alloc)?)
}

/// What `check` says of a text that is not too long: that it keeps all rules, or its first fault.
pub fn check(alloc: Global, words: &Words, text: &[u8]) -> Result<Report, Stop>
    requires { length text.now ≤ source_limit }
    ensures { Meets output result (SaysAs Mode.Check words.now text.now) }
{
    let typed = checked(alloc, text)?;
    accept(alloc, &typed)
}

/// The listing of code.
fn list(alloc: Global, code: &Verified) -> Result<Report, Stop>
    ensures { Meets output result (Lists code.now.code) }
{
    Ok(done_report(alloc, disassemble(alloc, code.code())?))
}

/// What `dis` says of the bytes of a code file: the listing of its code, or its first fault.
pub fn dis(alloc: Global, bytes: &[u8]) -> Result<Report, Stop>
    ensures { (w : Words) → Meets output result (SaysAs Mode.Dis w bytes.now) }
{
    let code = checked_code(alloc, bytes)?;
    list(alloc, &code)
}
