//! What records leave at the close.
ghost use Rattle.std.specs.Prelude.{◌≡◌, ◌<◌, ◌≤◌, ◌+◌, ◌++◌, ℕ, suc, [], None, option_to_list};
ghost use Rattle.std.specs.Prelude.{vec_len, vec_capacity};
ghost use Rattle.std.specs.Vec.Iter.{into_iter_items, into_iter_len};
ghost use Rattle.hub_core.specs.Tally.{record_at};
ghost use Rattle.hub_core.specs.Ordered.{end_in, self_in, ends_of, kept_in};

use crate::kept::Kept;
use crate::records::Records;
use crate::status::Status;
use crate::vectors::{append, empty};
use std::vec::IntoIter;

// What a record leaves: an end, or itself.
fn leaving<R, A, E>(held: Option<Status<R, A, E>>) -> (Option<E>, Option<Kept<R, A>>)
    ensures { (result.0 ≡ end_in held) × (result.1 ≡ self_in held) }
{
    let Some(status) = held else {
        return (None, None);
    };
    match status {
        Status::Ready(runner) => (None, Some(Kept::Run(runner))),
        Status::Waiting(at) => (None, Some(Kept::Join(at))),
        Status::Over(end) => (Some(end), None),
        Status::Out | Status::Gone => (None, None),
    }
}

// Appends what there is.
fn append_some<T>(list: &mut Vec<T>, value: Option<T>)
    requires { vec_len list.old < vec_capacity list.old }
    ensures items { list.new.items ≡ list.old.items ++ option_to_list value }
    ensures len { vec_len list.new ≤ vec_len list.old + 1 }
    ensures capacity { vec_capacity list.old ≤ vec_capacity list.new }
{
    if let Some(value) = value {
        append(list, value);
    }
}

// What the record of the next number leaves, or nothing where the records do not reach it.
fn take_record<R, A, E>(
    rest: &mut IntoIter<Option<Status<R, A, E>>>,
    ends: &mut Vec<Option<E>>,
    kept: &mut Vec<Kept<R, A>>,
)
    requires ends { vec_len ends.old < vec_capacity ends.old }
    requires kept { vec_len kept.old + into_iter_len rest.old ≤ vec_capacity kept.old }
    ensures ends { (n : ℕ) → ends.new.items ++ ends_of n (into_iter_items rest.new)
        ≡ ends.old.items ++ ends_of (suc n) (into_iter_items rest.old) }
    ensures kept { kept.new.items ++ kept_in (into_iter_items rest.new)
        ≡ kept.old.items ++ kept_in (into_iter_items rest.old) }
    ensures next { (j : ℕ) → record_at (into_iter_items rest.new) j
        ≡ record_at (into_iter_items rest.old) (suc j) }
    ensures room { (vec_len ends.new ≡ vec_len ends.old + 1)
        × (vec_capacity ends.old ≤ vec_capacity ends.new)
        × (vec_len kept.new + into_iter_len rest.new ≤ vec_capacity kept.new) }
{
    let Some(held) = rest.next() else {
        append(ends, None);
        return;
    };
    let (end, left) = leaving(held);
    append(ends, end);
    append_some(kept, left);
}

// Lets places go that have no records.
fn let_go<R, A, E>(rest: IntoIter<Option<Status<R, A, E>>>)
    requires { (j : ℕ) → record_at (into_iter_items rest) j ≡ None }
{
    let mut rest = rest;
    while let Some(held) = rest.next() {
        empty(held);
    }
    rest.destroy_empty();
}

impl<R, A, E> Records<R, A, E> {
    /// Of so many revisions by number the ends that nobody joined, and the runners and joiners that
    /// no seat has. No memory is taken.
    pub fn part(self, born: usize, ends: Vec<Option<E>>) -> (Vec<Option<E>>, Vec<Kept<R, A>>)
        requires ends { (ends.items ≡ []) × (born ≤ vec_capacity ends) }
        requires none { (j : ℕ) → born ≤ j → record_at self.list.items j ≡ None }
        ensures ends { result.0.items ≡ ends_of born self.list.items }
        ensures kept { result.1.items ≡ kept_in self.list.items }
    {
        let Records {
            list,
            queue: _,
            kept,
        } = self;
        let mut ends = ends;
        let mut kept = kept;
        let mut rest = list.into_iter();
        for _ in 0..born {
            take_record(&mut rest, &mut ends, &mut kept);
        }
        let_go(rest);
        (ends, kept)
    }
}
