//! Places of a list.

ghost use Rattle.std.specs.Prelude.{◌≡◌, ◌<◌, Some, length};
ghost use Rattle.revision_machine.specs.Numbered.{at_number, put_number};

use std::mem;

/// What stands at a place, where this comes instead.
pub fn swap<T>(list: &mut Vec<T>, place: usize, new: T) -> T
    requires { place < length list.old.items }
    ensures was { at_number list.old.items place ≡ Some result }
    ensures now { list.new.items ≡ put_number list.old.items place new }
{
    mem::replace(&mut list[place], new)
}
