//! Reads a trace from its one text.

ghost use Rattle.std.specs.Prelude.{IfErr, IfOk};
ghost use Rattle.trace_diagram.specs.Drafts.{HasRead, partial_of};
ghost use Rattle.trace_diagram.specs.Traces.{FailsAt, IsTextOf};

use crate::cut::cut;
use crate::diagram::Trace;
use crate::draft::Draft;
use crate::fault::TraceFault;
use crate::lines::read_head;
use crate::spelled::behind;
use std::alloc::Global;

/// The trace of which the bytes are the text, or where they go wrong first: at the start of the
/// first line with which no trace text goes on, or that has no line feed, or at the end. The other
/// error is want of memory.
pub fn read_trace(alloc: Global, bytes: &[u8]) -> Result<Trace, TraceFault>
    ensures ok { IfOk result (IsTextOf bytes.now) }
    ensures err { IfErr result (FailsAt bytes.now) }
{
    let Some(parts) = behind(bytes, b"revisions trace 1\n") else {
        return Err(TraceFault::Malformed { at: 0 });
    };
    let at = (bytes.len() - parts.len()) as u64;
    let Some((line, more)) = cut(parts, b'\n') else {
        return Err(TraceFault::Malformed { at });
    };
    let Some(path) = read_head(alloc, line)? else {
        return Err(TraceFault::Malformed { at });
    };
    read_parts(
        alloc,
        bytes,
        Draft::begin(alloc, Vec::new(alloc), path),
        more,
    )
}

/// The trace of which this much was read, with the rest of its lines.
fn read_parts(alloc: Global, bytes: &[u8], first: Draft, more: &[u8]) -> Result<Trace, TraceFault>
    requires { HasRead bytes.now (partial_of first) more.now }
    ensures ok { IfOk result (IsTextOf bytes.now) }
    ensures err { IfErr result (FailsAt bytes.now) }
{
    let mut draft = first;
    let mut rest = more;
    while let Some((line, behind)) = cut(rest, b'\n') {
        let Some(longer) = draft.take(alloc, line)? else {
            return Err(TraceFault::Malformed {
                at: (bytes.len() - rest.len()) as u64,
            });
        };
        draft = longer;
        rest = behind;
    }
    let at = (bytes.len() - rest.len()) as u64;
    if !rest.is_empty() {
        return Err(TraceFault::Malformed { at });
    }
    match draft.finish()? {
        Some(trace) => Ok(trace),
        None => Err(TraceFault::Malformed { at }),
    }
}
