//! Which revisions are ready, and which wait for the end of another.

/// A list of numbers, which is not empty: its first and its last. The link of each of them but the
/// last is the next.
#[derive(Clone, Copy)]
pub struct Chain {
    pub first: u32,
    pub last: u32,
}

/// The numbers that are ready, in one list, and of each number those that wait for its end. No
/// number stands in two lists, so each has one link, and no list takes memory of its own.
#[derive(Drop)]
pub struct RunQueue {
    pub links: Vec<u32>,
    pub waiters: Vec<Option<Chain>>,
    pub ready: Option<Chain>,
    /// How many have not ended.
    pub unfinished: usize,
    /// How many are ready, where of several that waited for one end only one is counted. The mark
    /// tells it. No clause says how it stands to the list of what is ready.
    pub many: u64,
}
