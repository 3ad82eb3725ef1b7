//! What a seat knows beside its passes. No value of this is made.
use crate::view::View;
use std::collections::LinkedList;

/// What a seat knows.
pub struct Sight<S> {
    pub seat: View<S>,
    // The rounds that it made: the child, the joinee and the forker.
    pub rounds: LinkedList<(u64, u64, u64)>,
    // The children that it keeps, of which the hub has no record.
    pub mine: LinkedList<u64>,
    // The close has room for all revisions of a number below this one.
    pub limit: u64,
    // While it has the turn: what the turns entered, the forkers, and the children that seats kept
    // when it looked last.
    pub entries: LinkedList<(u64, u64)>,
    pub forkers: LinkedList<u64>,
    pub lone: LinkedList<u64>,
}
