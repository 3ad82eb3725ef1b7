//! Places of a run queue for numbers that stand in no list, and how many have not ended.
ghost use Rattle.std.specs.Prelude.{◌≡◌, ◌<◌, ◌≤◌, ◌+◌, ℕ, List, length, vec_len, vec_capacity};
ghost use Rattle.hub_core.specs.Chains.{HasLists, IsAsLong};

use crate::queueing::cover;
use crate::run_queue::RunQueue;
use crate::vectors::append;

impl RunQueue {
    /// A place for one more number.
    pub fn make_place(&mut self)
        requires reach { length self.old.links.items ≤ length self.old.waiters.items }
        requires room { (vec_len self.old.links < vec_capacity self.old.links)
            × (vec_len self.old.waiters < vec_capacity self.old.waiters) }
        ensures lists { (ready : List ℕ) (waits : ℕ → List ℕ) → HasLists self.old ready waits
            → HasLists self.new ready waits }
        ensures same { self.new.unfinished ≡ self.old.unfinished }
        ensures many { length self.new.links.items ≡ length self.old.links.items + 1 }
        ensures reach { length self.new.links.items ≤ length self.new.waiters.items }
    {
        append(&mut self.links, 0);
        cover(&mut self.waiters, self.links.len());
    }

    /// One more has not ended, and stands in no list.
    pub fn begin_one(&mut self)
        requires { self.old.unfinished ≤ 4294967296 }
        ensures lists { (ready : List ℕ) (waits : ℕ → List ℕ) → HasLists self.old ready waits
            → HasLists self.new ready waits }
        ensures count { self.new.unfinished ≡ self.old.unfinished + 1 }
        ensures long { IsAsLong self.old self.new }
    {
        self.unfinished += 1;
    }

    /// One that stands in no list, and for which none waits, has ended.
    pub fn end_one(&mut self)
        requires { 0 < self.old.unfinished }
        ensures lists { (ready : List ℕ) (waits : ℕ → List ℕ) → HasLists self.old ready waits
            → HasLists self.new ready waits }
        ensures count { self.new.unfinished + 1 ≡ self.old.unfinished }
        ensures long { IsAsLong self.old self.new }
    {
        self.unfinished -= 1;
    }
}
