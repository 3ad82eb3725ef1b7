//! How a journal gets room and entries.
ghost use Rattle.std.specs.Prelude.{◌≡◌, ◌<◌, ◌≤◌, ◌+◌, ◌*◌, ◌^◌, ◌++◌, ℕ, [], ◌∷◌, true, false};
ghost use Rattle.std.specs.Prelude.{vec_len, vec_capacity};
ghost use Rattle.hub_core.specs.Tally.{pairs};
ghost use Rattle.hub_core.specs.Journaled.{HasRoomFor};

use crate::journal::{Entry, Journal};
use crate::vectors::append;
use std::alloc::Global;

impl<E> Journal<E> {
    /// No entries, and no room.
    pub fn new(alloc: Global) -> Journal<E>
        ensures { (result.entries.items ≡ []) × (result.limit ≡ 0) }
    {
        Journal {
            entries: Vec::new(alloc),
            limit: 0,
            schedule: Vec::new(alloc),
            forkers: Vec::new(alloc),
            rounds: Vec::new(alloc),
            ends: Vec::new(alloc),
        }
    }

    /// Lets it go, with its entries.
    pub fn free(self) {
        let Journal {
            entries: _,
            limit: _,
            schedule: _,
            forkers: _,
            rounds: _,
            ends,
        } = self;
        ends.destroy_empty();
    }

    /// Room for so many entries of turns, where there is memory.
    pub fn reserve(&mut self, more: usize) -> bool
        requires { more ≤ 4 }
        ensures same { (self.new.entries.items ≡ self.old.entries.items)
            × (self.new.limit ≡ self.old.limit) }
        ensures room { result ≡ true → HasRoomFor more self.new }
    {
        let long = 3 * self.limit + self.entries.len() + more;
        self.entries.try_reserve(more).is_ok() && self.schedule.try_reserve(long).is_ok()
    }

    /// Room for all revisions of a number below this one, where there is memory.
    pub fn widen(&mut self, limit: usize) -> bool
        requires { limit < 2 ^ 32 }
        ensures entries { self.new.entries.items ≡ self.old.entries.items }
        ensures wide { result ≡ true → self.new.limit ≡ limit }
        ensures none { result ≡ false → self.new.limit ≡ self.old.limit }
    {
        let long = 3 * limit + self.entries.len();
        if self.schedule.try_reserve(long).is_err()
            || self.forkers.try_reserve(limit).is_err()
            || self.rounds.try_reserve(limit).is_err()
            || self.ends.try_reserve(limit).is_err()
        {
            return false;
        }
        self.limit = limit;
        true
    }

    /// An entry of a turn, for which there is room.
    pub fn enter(&mut self, count: u32, number: u32)
        requires { HasRoomFor 1 self.old }
        ensures entry { pairs self.new.entries.items
            ≡ pairs self.old.entries.items ++ (count, number) ∷ [] }
        ensures room { (more : ℕ) → HasRoomFor (more + 1) self.old → HasRoomFor more self.new }
        ensures limit { self.new.limit ≡ self.old.limit }
    {
        append(&mut self.entries, Entry { count, number });
    }
}
