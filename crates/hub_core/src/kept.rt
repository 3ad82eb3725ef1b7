//! What a close leaves of a revision.

/// What a halt left of a revision.
#[derive(Drop)]
pub enum Kept<R, A> {
    /// A revision before its leg.
    Run(R),
    /// A joiner.
    Join(A),
}
