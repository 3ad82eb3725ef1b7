//! The names of a merge's parameters.

/// The names of the joiner's, the joinee's and the root's number.
#[derive(Clone, Copy, Drop)]
pub struct Parameters<'a> {
    pub main: &'a [u8],
    pub join: &'a [u8],
    pub root: &'a [u8],
}
