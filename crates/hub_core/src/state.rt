//! How far a hub is.

/// Whether a halt was entered, and which was entered first.
#[derive(Clone, Copy, PartialEq, Eq)]
pub enum HubState {
    /// None.
    All,
    /// A revision was joined a second time.
    Twice,
    /// There was no memory, a fork found no number left, or a caller gave up.
    NoMemory,
}
