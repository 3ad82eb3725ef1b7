//! The code of a program, as a file.
ghost use Rattle.std.specs.Prelude.{◌≤◌, length};
ghost use Rattle.rev_syntax.specs.View.{program as whole};
ghost use Rattle.rev_report.specs.Report.{output};
ghost use Rattle.rev_words.specs.declared.Words.{Words};
ghost use Rattle.mode_reports.specs.Answer.{Emits, SaysAs, source_limit};
ghost use Rattle.mode_reports.specs.Stops.{Meets};

use crate::stop::Stop;
use crate::text::checked;
use code_file::write_code;
use codegen::generate;
use rev_report::{Report, done_report};
use rev_words::Mode;
use std::alloc::Global;
use typed_programs::Typed;

/// The report of the code of a program.
fn write_file(alloc: Global, typed: &Typed) -> Result<Report, Stop>
    ensures { Meets output result (Emits (whole typed.now.expanded.program)) }
{
    let code = generate(alloc, typed)?;
    Ok(done_report(alloc, write_code(alloc, code.code())?))
}

/// What `emit` says of a text that is not too long: the file of its code, or its first fault.
pub fn emit(alloc: Global, text: &[u8]) -> Result<Report, Stop>
    requires { length text.now ≤ source_limit }
    ensures { (w : Words) → Meets output result (SaysAs Mode.Emit w text.now) }
{
    let typed = checked(alloc, text)?;
    write_file(alloc, &typed)
}
