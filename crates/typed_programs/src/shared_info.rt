//! What a program declares of a shared variable.

/// A shared variable: the number of its declaration, its first location and its cells, whether it
/// is an array, and the number of its merge among the merges, if it is cumulative.
#[derive(Clone, Copy, Drop)]
pub struct SharedInfo {
    pub decl: u32,
    pub base: u32,
    pub cells: u32,
    pub array: bool,
    pub merge: Option<u32>,
}
