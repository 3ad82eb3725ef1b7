//! Vectors with room, and values of types that may not be let go.
ghost use Rattle.std.specs.Prelude.{◌≡◌, ◌<◌, ◌≤◌, ◌+◌, ◌++◌, [], ◌∷◌, None, vec_len, vec_capacity};

/// Nothing, of a type that may not be let go.
pub fn empty<T>(nothing: Option<T>)
    requires { nothing ≡ None }
    ensures { nothing ≡ None }
{
    match nothing {
        None => {},
        Some(value) => empty(Some(value)),
    }
}

/// Appends where there is room.
pub fn append<T>(list: &mut Vec<T>, value: T)
    requires { vec_len list.old < vec_capacity list.old }
    ensures items { list.new.items ≡ list.old.items ++ value ∷ [] }
    ensures len { vec_len list.new ≡ vec_len list.old + 1 }
    ensures capacity { vec_capacity list.old ≤ vec_capacity list.new }
{
    if let Err(failed) = list.push(value) {
        empty(Some(failed.value));
    }
}
