//! The trace of a run.

use rev_num::{Bytes, Items, Path, Trap, Value};

/// The trace of a run: one part for each revision, in post-order of paths, so that `main` is last.
#[derive(Drop)]
pub struct Trace {
    pub parts: Items<Part>,
}

/// What one revision did, up to its end.
#[derive(Drop)]
pub struct Part {
    pub path: Path,
    /// The forks and joins, in the order in which they came.
    pub events: Items<TraceEvent>,
    pub end: PartEnd,
    /// The fuel that was left.
    pub fuel: u64,
    /// What the revision wrote. The trace of a run has it in ascending order of location, and a
    /// text that is read may have it in any order.
    pub written: Items<Change>,
    /// What the revision printed, whole lines.
    pub text: Bytes,
}

/// A fork or a join, with the line of its statement.
#[derive(Drop)]
pub enum TraceEvent {
    Forked { child: Path, line: u32 },
    Joined { on: Path, line: u32 },
}

/// How a revision ended.
#[derive(Drop)]
pub enum PartEnd {
    Done,
    /// By a trap. The place is that of the location whose merge faulted, and empty for other
    /// causes. A text has the place, and not the number of the location.
    Trapped { trap: Trap, place: Bytes },
}

/// A location that was written: its name, the value last written, and the value it had in the
/// revision's snapshot.
#[derive(Drop)]
pub struct Change {
    pub place: Bytes,
    pub value: Value,
    pub root: Value,
}
