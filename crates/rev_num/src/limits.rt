//! Limits on runs.

/// The most frames that a revision has.
pub const MOST_FRAMES: usize = 1000;
