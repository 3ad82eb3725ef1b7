//! A source that holds the text of a program and a trace behind it: where the trace begins.

ghost use Rattle.std.specs.Prelude.{◌≤◌, MatchBool, drop, length, take};
ghost use Rattle.trace_diagram.specs.Traces.{IsWholeLines};
ghost use Rattle.trace_diagram.specs.Dividing.{BeginsTrace, Divides, IsCutAt, SourcesDivideOnce};

/// Whether the bytes are none or end with a line feed.
fn are_whole(bytes: &[u8]) -> bool
    ensures { MatchBool result (IsWholeLines bytes.now) (IsWholeLines bytes.now → ⊥) }
{
    match bytes.last() {
        Some(byte) => *byte == b'\n',
        None => true,
    }
}

/// Whether the first line of the bytes is that of a trace.
fn begins_trace(bytes: &[u8]) -> bool
    ensures { MatchBool result (BeginsTrace bytes.now) (BeginsTrace bytes.now → ⊥) }
{
    let Some(rest) = bytes.strip_prefix(b"revisions trace 1") else {
        return false;
    };
    match rest.first() {
        Some(byte) => *byte == b'\n',
        None => true,
    }
}

/// Whether a trace begins behind so many bytes.
fn is_cut(bytes: &[u8], at: usize) -> bool
    requires { at ≤ length bytes.now }
    ensures { MatchBool result (IsCutAt bytes.now (take at bytes.now) (drop at bytes.now))
        (IsCutAt bytes.now (take at bytes.now) (drop at bytes.now) → ⊥) }
{
    are_whole(&bytes[..at]) && begins_trace(&bytes[at..])
}

/// How many bytes stand before the trace, which begins with the first line that is
/// `revisions trace 1`: all of them where no line is that.
pub fn trace_start(bytes: &[u8]) -> usize
    ensures divides { Divides bytes.now (take result bytes.now) (drop result bytes.now) }
    ensures inside { result ≤ length bytes.now }
{
    for at in 0..bytes.len() {
        if is_cut(bytes, at) {
            return at;
        }
    }
    bytes.len()
}

/// A source has one text and one trace behind it.
pub fn source_law()
    ensures { SourcesDivideOnce }
{}
