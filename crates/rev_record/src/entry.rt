//! An entry.

use rev_num::{Bytes, Cause, Items, Path, Value};

/// A location, and its value. A handle is a path.
#[derive(Drop)]
pub struct KeptValue {
    pub location: u32,
    pub value: Value,
}

/// A position of the input, counted from 0, and the number there.
#[derive(Clone, Copy)]
pub struct Given {
    pub position: u32,
    pub number: i64,
}

/// How a leaf revision ended: by itself, since it joined nothing.
#[derive(Clone, Copy)]
pub enum LeafEnd {
    Done,
    Trapped { cause: Cause, line: u32 },
}

/// What is kept of a leaf revision: with what it began but for its snapshot, what it read, and what
/// it left but for the roots of its writes.
#[derive(Drop)]
pub struct LeafEntry {
    pub path: Path,
    pub block: u16,
    pub args: Items<Value>,
    pub fuel: u64,
    /// The locations whose words in the snapshot it read, with those.
    pub locations: Items<KeptValue>,
    /// The positions of the input whose numbers it read, with those.
    pub inputs: Items<Given>,
    /// How many inputs there were, if it read that.
    pub count: Option<u64>,
    pub written: Items<KeptValue>,
    pub text: Bytes,
    /// The fuel that it left.
    pub rest: u64,
    pub end: LeafEnd,
}
