//! Kinds of values.

ghost use Rattle.std.specs.Prelude.{◌≡◌};
ghost use Rattle.rev_num.specs.Value as kinds;

use crate::value::ValueKind;

/// Whether two kinds are the same.
pub fn same_kind(a: ValueKind, b: ValueKind) -> bool
    ensures { result ≡ kinds.same_kind a b }
{
    match (a, b) {
        (ValueKind::Int, ValueKind::Int) => true,
        (ValueKind::Bool, ValueKind::Bool) => true,
        (ValueKind::Rev, ValueKind::Rev) => true,
        _ => false,
    }
}
