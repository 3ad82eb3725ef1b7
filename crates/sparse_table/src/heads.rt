//! Steps on the first word of a part.
ghost use Rattle.std.specs.Prelude.{◌≡◌, ◌+◌, ◌-◌, ◌*◌, ◌/◌, ◌%◌, ◌^◌, ◌<◌};
ghost use Rattle.std.specs.Prelude.{◌==◌, []};
ghost use mathlib.Core.Option.{none};
ghost use prog.Atomic.{either};
ghost use Rattle.atomic_table.specs.Table.{step, Allows};
ghost use Rattle.sparse_table.specs.Parts.{head_at};
ghost use Rattle.sparse_table.specs.Seats.{IsOf, IsPartOf, IsStill, Backed, me_of, view, number, known};

use crate::plays::{Cut, Head};
use crate::rule::PartRule;
use crate::table::{Seat, Table};
use atomic_table::Play;

impl<V, K, P: PartRule<V, K>> Table<V, K, P> {
    // Where the first word of a part lies.
    pub(crate) fn head(&self, part: usize) -> usize
        requires { IsPartOf self.now part }
        ensures { (result ≡ head_at self.now.len self.now.shift part) × (result + 1 < self.now.total) }
    {
        self.len + 2 * (part >> self.shift)
    }

    /// The first word of a part.
    pub fn load_head<M: Play<(), V>>(&self, seat: &mut Seat<V>, part: usize) -> u64
        requires own { IsOf self.now seat.old × IsPartOf self.now part }
        requires allowed { Allows (P.holds self.now.words.key.about) 0 (number seat.old)
            (me_of seat.old) part (λ n. n) (M.then (step 0 part 0 0 none) (me_of seat.old)) }
        ensures own { IsStill seat.old seat.new }
        ensures told { M.then (step 0 part 0 0 none) (me_of seat.old) result (me_of seat.new) }
    {
        let at = self.head(part);
        self.words.load::<Head<M>>(&mut seat.pass, at)
    }

    /// Makes this the first word of a part.
    pub fn store_head<M: Play<(), V>>(&self, seat: &mut Seat<V>, part: usize, new: u64)
        requires own { IsOf self.now seat.old × IsPartOf self.now part }
        requires allowed { Allows (P.holds self.now.words.key.about) 0 (number seat.old)
            (me_of seat.old) part (λ _. new)
            (λ _. M.then (step 0 part new 0 none) (me_of seat.old) new) }
        requires backed { Backed (P.holds self.now.words.key.about) P.needs (number seat.old)
            (view seat.old) (known seat.old) part (λ _. new) }
        ensures own { IsStill seat.old seat.new }
        ensures told { M.then (step 0 part new 0 none) (me_of seat.old) new (me_of seat.new) }
    {
        let at = self.head(part);
        self.words.store::<Head<M>>(&mut seat.pass, at, new);
    }

    /// Returns the first word of a part as it was, which has become `new` if it was `old`.
    pub fn exchange_head<M: Play<(), V>>(
        &self,
        seat: &mut Seat<V>,
        part: usize,
        old: u64,
        new: u64,
    ) -> u64
        requires own { IsOf self.now seat.old × IsPartOf self.now part }
        requires allowed { Allows (P.holds self.now.words.key.about) 0 (number seat.old)
            (me_of seat.old) part (λ n. either (n == old) new n)
            (M.then (step 0 part old new none) (me_of seat.old)) }
        requires backed { Backed (P.holds self.now.words.key.about) P.needs (number seat.old)
            (view seat.old) (known seat.old) part (λ n. either (n == old) new n) }
        ensures own { IsStill seat.old seat.new }
        ensures told { M.then (step 0 part old new none) (me_of seat.old) result (me_of seat.new) }
    {
        let at = self.head(part);
        self.words
            .compare_exchange::<Head<M>>(&mut seat.pass, at, old, new)
    }

    /// Adds to the first word of a part, modulo 2^64, and returns it as it was.
    pub fn add_head<M: Play<(), V>>(&self, seat: &mut Seat<V>, part: usize, k: u64) -> u64
        requires own { IsOf self.now seat.old × IsPartOf self.now part }
        requires allowed { Allows (P.holds self.now.words.key.about) 0 (number seat.old)
            (me_of seat.old) part (λ n. (n + k) % 2 ^ 64)
            (M.then (step 0 part k 0 none) (me_of seat.old)) }
        requires backed { Backed (P.holds self.now.words.key.about) P.needs (number seat.old)
            (view seat.old) (known seat.old) part (λ n. (n + k) % 2 ^ 64) }
        ensures own { IsStill seat.old seat.new }
        ensures told { M.then (step 0 part k 0 none) (me_of seat.old) result (me_of seat.new) }
    {
        let at = self.head(part);
        self.words.fetch_add::<Head<M>>(&mut seat.pass, at, k)
    }

    /// Takes a number above 0 off the first word of a part, modulo 2^64, and returns it as it was.
    pub fn sub_head<M: Play<(), V>>(&self, seat: &mut Seat<V>, part: usize, k: u64) -> u64
        requires own { IsOf self.now seat.old × IsPartOf self.now part × (0 < k) }
        requires allowed { Allows (P.holds self.now.words.key.about) 0 (number seat.old)
            (me_of seat.old) part (λ n. (n + (2 ^ 64 - k)) % 2 ^ 64)
            (M.then (step 0 part k 0 none) (me_of seat.old)) }
        requires backed { Backed (P.holds self.now.words.key.about) P.needs (number seat.old)
            (view seat.old) (known seat.old) part (λ n. (n + (2 ^ 64 - k)) % 2 ^ 64) }
        ensures own { IsStill seat.old seat.new }
        ensures told { M.then (step 0 part k 0 none) (me_of seat.old) result (me_of seat.new) }
    {
        let at = self.head(part);
        self.words
            .fetch_add::<Cut<M>>(&mut seat.pass, at, u64::MAX - k + 1)
    }
}
