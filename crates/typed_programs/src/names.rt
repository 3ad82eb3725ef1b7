//! What the name of a shared variable means.

use rev_num::ValueKind;

/// A shared variable: the kind of its values, and whether it is an array.
#[derive(Clone, Copy, Drop)]
pub struct Holder {
    pub kind: ValueKind,
    pub array: bool,
}
