//! How a leg comes out.

/// How a leg comes out.
#[derive(Clone, Copy)]
pub enum LegAnswer {
    /// A fork, of a child with this number.
    Forked { child: u32 },
    /// A join: this revision was done and was merged, or had trapped and was dropped at a TryJoin.
    Joined { on: u32 },
    /// The revision is done.
    Ended,
    /// It has trapped, by itself or by its join.
    Trapped,
    /// It stands at its join of this revision, which has not ended: there is no leg.
    Waits { on: u32 },
    /// A revision was joined twice, now or before.
    Twice,
    /// No revision has this number.
    NoSuch,
    /// The revision had ended before.
    Over,
}
