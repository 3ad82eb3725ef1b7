//! What the seats know. No value of these is made.
use crate::HubState;
use std::collections::LinkedList;

/// What a seat found of a revision at the moment at which it last made changes.
pub enum Said {
    /// No seat has it, and it waits for nobody.
    Ready,
    /// A seat has it.
    Out,
    /// It waits for the end of the revision `on`.
    Waits { on: u64 },
    /// Its end was handed in, and nobody joined it.
    Done,
    /// The same, of one that ended by a trap.
    Trapped,
    /// It was joined.
    Joined,
}

/// What a seat knows, and the revisions that it has.
pub struct View<S> {
    // Its parts of the right to close, and where the run began. Without a part there is no start.
    pub parts: u64,
    pub start: Option<S>,
    // What the snapshots of the run belong to.
    pub group: LinkedList<u64>,
    // 1 while it has the turn. The hub's schedule, and the numbers that seats have, are then these.
    pub has: u64,
    pub log: LinkedList<u64>,
    pub out: LinkedList<u64>,
    // Its passes: a number, and the schedule at its last turn.
    pub passes: LinkedList<(u64, LinkedList<u64>)>,
    // 1 once it saw that all is over, and the halt that it knows of.
    pub saw: u64,
    pub halt: HubState,
    // What it found at the moment of its last turn or round: of each revision, of halts, and the
    // schedule.
    pub said: LinkedList<Said>,
    pub entered: HubState,
    pub found: LinkedList<u64>,
    // The schedule as it left it at the end of each of its turns and by each of its rounds, the last
    // first.
    pub turns: LinkedList<LinkedList<u64>>,
}
