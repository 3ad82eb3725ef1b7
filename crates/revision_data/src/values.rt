//! What is read of a value.

ghost use Rattle.std.specs.Prelude.{◌≡◌, ◌<◌, IfSome};
ghost use Rattle.typed_programs.specs.Value as spec;
ghost use Rattle.revision_data.specs.Reading.{place_in};

use rev_num::Value;

/// Whether a bool is true; other values count as false.
pub fn is_true(value: &Value) -> bool
    ensures { result ≡ spec.truth_of value.now }
{
    match value {
        Value::Bool(b) => *b,
        Value::Int(_) | Value::Rev(_) => false,
    }
}

/// The number that an int is; 0 stands for the number of another value.
pub fn number_of(value: &Value) -> i64
    ensures { result ≡ spec.number_of value.now }
{
    match value {
        Value::Int(n) => *n,
        Value::Bool(_) | Value::Rev(_) => 0,
    }
}

/// The index, if it is one of this many.
pub fn place(index: i64, count: usize) -> Option<usize>
    ensures is { result ≡ place_in count index }
    ensures within { IfSome result (λ i. i < count) }
{
    if index < 0 {
        return None;
    }
    let index = index as usize;
    if index < count { Some(index) } else { None }
}
