//! Vectors that are not empty.
ghost use Rattle.std.specs.Prelude.{◌≡◌, ◌<◌, ◌++◌, [], ◌∷◌, length, vec_capacity};

/// The last item.
pub fn take_last<T>(list: &mut Vec<T>) -> T
    requires { 0 < length list.old.items }
    ensures items { list.old.items ≡ list.new.items ++ result ∷ [] }
    ensures capacity { vec_capacity list.new ≡ vec_capacity list.old }
{
    list.pop().unwrap()
}
