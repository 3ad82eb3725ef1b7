//! The steps of holders.

/// A step of a holder on a segment.
#[derive(Clone, Copy)]
pub enum SegStep {
    /// Begins to build a free segment. The holder builds none.
    Claim {
        holder: u32,
        segment: u32,
    },
    /// Gives the segment that it builds a word for a location.
    Put {
        holder: u32,
        segment: u32,
        location: u32,
        word: u64,
    },
    /// Makes the segment that it builds live, over the one that it refers to once, if any. Then it
    /// refers twice to the new one.
    Publish {
        holder: u32,
        segment: u32,
    },
    /// Refers once more to the one segment that it refers to.
    Share {
        holder: u32,
        segment: u32,
    },
    /// Gives up one reference. With the last one the segment gets free, and the holder refers to
    /// its parent, if any.
    Release {
        holder: u32,
        segment: u32,
    },
    /// Gives up the segment that it alone refers to, and refers to its parent, if any.
    Collapse {
        holder: u32,
        segment: u32,
    },
    /// Gives one of its two references to a holder that has none and builds none.
    HandOn {
        holder: u32,
        segment: u32,
        to: u32,
    },
}

/// What a step came to.
#[derive(Clone, Copy, PartialEq, Eq)]
pub enum Applied {
    /// It was made.
    Done,
    /// It cannot be made: a holder or the segment is not in the state that it needs, or there is no
    /// such holder, segment or location. Nothing changed.
    Refused,
}
