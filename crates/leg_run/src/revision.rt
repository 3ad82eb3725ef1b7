//! A running revision.

ghost use Rattle.std.specs.Prelude.{◌≡◌};

use block_run::{Memory, Registers};
use rev_num::Cause;
use version_map::Snapshot;

/// A frame that waits for a call: its block, the place behind its Call, and the first of its locals
/// in the area of words.
#[derive(Clone, Copy)]
pub struct Waiting {
    pub block: u16,
    pub at: u32,
    pub base: usize,
}

/// An entry of the list of forks and joins: the revision that was forked or joined, and the line.
#[derive(Clone, Copy)]
pub enum Meeting {
    Forked { revision: u64, line: u32 },
    Joined { revision: u64, line: u32 },
}

/// All of a running revision but its memory. The locals and the stack of each frame lie in one area
/// of words, those of a called frame where the stack of the calling one begins.
#[derive(Drop)]
pub struct Run {
    pub words: Vec<u64>,
    /// The frames that wait, the innermost last.
    pub below: Vec<Waiting>,
    pub registers: Registers,
    /// What it has printed.
    pub text: Vec<u8>,
    /// How many forks it has made.
    pub forks: u64,
    pub meetings: Vec<Meeting>,
}

/// A running revision.
pub struct RunningRevision<P: Snapshot> {
    pub memory: Memory<P>,
    pub run: Run,
}

impl<P: Snapshot> RunningRevision<P> {
    /// Lets the revision go, as after want of memory, and gives its snapshot back.
    pub fn give_up(self) -> P::Spent
        ensures { P.spent_group result ≡ P.group self.memory.snapshot }
    {
        let RunningRevision { memory, run: _ } = self;
        let Memory {
            delta: _,
            first: _,
            snapshot,
        } = memory;
        snapshot.release()
    }
}

/// How a leg ends: at a fork of a child that runs this block, at a join of this revision, which may
/// be a TryJoin, at the end, or with a trap of its own.
#[derive(Clone, Copy)]
pub enum LegEnd {
    Fork(u16),
    Join { is_try: bool, on: u64 },
    End,
    Trap(Cause),
}
