//! What a hub has of a joinee.

/// What the record of a joinee says.
pub enum Joinee {
    /// It has ended.
    Over,
    /// It was joined.
    Gone,
    /// It has not ended.
    Open,
    /// There is none.
    Nowhere,
}
