//! A value as an expression reads it.

use rev_num::Path;

/// A value as an expression reads it. The path of a handle is borrowed, so that reading copies
/// nothing.
#[derive(Clone, Copy, Drop)]
pub enum Seen<'a> {
    Int(i64),
    Bool(bool),
    Rev(Option<&'a Path>),
}
