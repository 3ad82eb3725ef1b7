//! Whether two parts say the same.

ghost use Rattle.std.specs.Prelude.{◌≡◌, ◌≢◌, MatchBool};
ghost use Rattle.trace_diagram.specs.Shown.{cause_shown, end_shown, shown_part};

use rev_num::{Cause, Value};
use trace_diagram::{Change, Part, PartEnd, TraceEvent};

/// Whether two values are the same.
fn is_same_value(a: &Value, b: &Value) -> bool
    ensures { MatchBool result (a.now ≡ b.now) (a.now ≢ b.now) }
{
    match (a, b) {
        (Value::Int(n), Value::Int(m)) => n == m,
        (Value::Bool(p), Value::Bool(q)) => p == q,
        (Value::Rev(None), Value::Rev(None)) => true,
        (Value::Rev(Some(p)), Value::Rev(Some(q))) => p.is(q),
        _ => false,
    }
}

/// Whether the bytes are the same.
fn is_same_text(a: &[u8], b: &[u8]) -> bool
    ensures { MatchBool result (a.now ≡ b.now) (a.now ≢ b.now) }
{
    a == b
}

/// Whether two forks or joins are the same.
fn is_same_event(a: &TraceEvent, b: &TraceEvent) -> bool
    ensures { MatchBool result (a.now ≡ b.now) (a.now ≢ b.now) }
{
    match (a, b) {
        (
            TraceEvent::Forked { child, line },
            TraceEvent::Forked {
                child: other,
                line: at,
            },
        ) => child.is(other) && line == at,
        (
            TraceEvent::Joined { on, line },
            TraceEvent::Joined {
                on: other,
                line: at,
            },
        ) => on.is(other) && line == at,
        _ => false,
    }
}

/// Whether the forks and joins are the same.
fn are_same_events(a: &[TraceEvent], b: &[TraceEvent]) -> bool
    ensures { MatchBool result (a.now ≡ b.now) (a.now ≢ b.now) }
{
    if a.len() != b.len() {
        return false;
    }
    for i in 0..a.len() {
        if !is_same_event(&a[i], &b[i]) {
            return false;
        }
    }
    true
}

/// Whether two writes are the same.
fn is_same_change(a: &Change, b: &Change) -> bool
    ensures { MatchBool result (a.now ≡ b.now) (a.now ≢ b.now) }
{
    is_same_text(a.place.as_slice(), b.place.as_slice())
        && is_same_value(&a.value, &b.value)
        && is_same_value(&a.root, &b.root)
}

/// Whether the writes are the same.
fn are_same_changes(a: &[Change], b: &[Change]) -> bool
    ensures { MatchBool result (a.now ≡ b.now) (a.now ≢ b.now) }
{
    if a.len() != b.len() {
        return false;
    }
    for i in 0..a.len() {
        if !is_same_change(&a[i], &b[i]) {
            return false;
        }
    }
    true
}

/// The cause without the number of a merge's location, of which a text does not tell.
fn shown_cause(cause: Cause) -> Cause
    ensures { result ≡ cause_shown cause }
{
    match cause {
        Cause::Merge { fault, .. } => Cause::Merge { location: 0, fault },
        _ => cause,
    }
}

/// Whether two ends say the same.
fn is_same_end(a: &PartEnd, b: &PartEnd) -> bool
    ensures { MatchBool result (end_shown a.now ≡ end_shown b.now)
        (end_shown a.now ≢ end_shown b.now) }
{
    match (a, b) {
        (PartEnd::Done, PartEnd::Done) => true,
        (
            PartEnd::Trapped { trap, place },
            PartEnd::Trapped {
                trap: other,
                place: at,
            },
        ) => {
            shown_cause(trap.cause) == shown_cause(other.cause)
                && trap.line == other.line
                && trap.origin.is(&other.origin)
                && is_same_text(place.as_slice(), at.as_slice())
        }
        _ => false,
    }
}

/// Whether two parts say the same.
pub fn is_same_part(a: &Part, b: &Part) -> bool
    ensures { MatchBool result (shown_part a.now ≡ shown_part b.now)
        (shown_part a.now ≢ shown_part b.now) }
{
    a.path.is(&b.path)
        && are_same_events(a.events.as_slice(), b.events.as_slice())
        && is_same_end(&a.end, &b.end)
        && a.fuel == b.fuel
        && are_same_changes(a.written.as_slice(), b.written.as_slice())
        && is_same_text(a.text.as_slice(), b.text.as_slice())
}
