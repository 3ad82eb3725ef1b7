//! The version of a file.

/// The version of a file, which its code fixes: three where the code has more than 64 locations,
/// else two where it has a `TryJoin`, else one.
#[derive(Clone, Copy)]
pub enum Version {
    One,
    Two,
    Three,
}
