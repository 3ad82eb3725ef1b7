//! Values as an expression reads them, and values with a path of their own.

ghost use Rattle.std.specs.Prelude.{◌≡◌, IfOk};
ghost use Rattle.rev_evaluator.specs.Seen.{seen};

use crate::seen::Seen;
use rev_num::{Path, Value};
use std::alloc::{AllocError, Global};

/// The value, with the path of a handle borrowed.
pub fn seen_of(value: &Value) -> Seen<'_>
    ensures { seen result ≡ value.now }
{
    match value {
        Value::Int(n) => Seen::Int(*n),
        Value::Bool(b) => Seen::Bool(*b),
        Value::Rev(None) => Seen::Rev(None),
        Value::Rev(Some(path)) => Seen::Rev(Some(path)),
    }
}

/// The value, with a path of its own.
pub fn owned(alloc: Global, value: Seen) -> Result<Value, AllocError>
    ensures { IfOk result (λ x. x ≡ seen value.entry) }
{
    match value {
        Seen::Int(n) => Ok(Value::Int(n)),
        Seen::Bool(b) => Ok(Value::Bool(b)),
        Seen::Rev(None) => Ok(Value::Rev(None)),
        Seen::Rev(Some(path)) => Ok(Value::Rev(Some(copied(alloc, path)?))),
    }
}

fn copied(alloc: Global, path: &Path) -> Result<Path, AllocError>
    ensures { IfOk result (λ p. p ≡ path.now) }
{
    path.copy(alloc)
}
