//! Steps on the other words of a part.
ghost use Rattle.std.specs.Prelude.{◌≡◌, ◌<◌, []};
ghost use mathlib.Core.Option.{none};
ghost use Rattle.atomic_table.specs.Table.{step, Allows};
ghost use Rattle.sparse_table.specs.Seats.{IsOf, IsWordOf, IsStill, IsThere, me_of, view, number, known};

use crate::plays::Inner;
use crate::rule::PartRule;
use crate::table::{Seat, Table};
use atomic_table::Play;

impl<V, K, P: PartRule<V, K>> Table<V, K, P> {
    /// The word at an index, which is one of a part that is there. The part is for the proof alone.
    pub fn load<M: Play<(), V>>(&self, seat: &mut Seat<V>, part: usize, i: usize) -> u64
        requires own { IsOf self.now seat.old × IsWordOf self.now part i }
        requires there { IsThere (P.holds self.now.words.key.about) P.needs (number seat.old)
            (view seat.old) (known seat.old) part }
        requires allowed { Allows (P.holds self.now.words.key.about) 0 (number seat.old)
            (me_of seat.old) i (λ n. n) (M.then (step 0 i 0 0 none) (me_of seat.old)) }
        ensures own { IsStill seat.old seat.new }
        ensures told { M.then (step 0 i 0 0 none) (me_of seat.old) result (me_of seat.new) }
    {
        let _part = part;
        self.words.load::<Inner<M>>(&mut seat.pass, i)
    }

    /// Makes this the word at an index, which is one of a part that is there. The part is for the proof
    /// alone.
    pub fn store<M: Play<(), V>>(&self, seat: &mut Seat<V>, part: usize, i: usize, new: u64)
        requires own { IsOf self.now seat.old × IsWordOf self.now part i }
        requires there { IsThere (P.holds self.now.words.key.about) P.needs (number seat.old)
            (view seat.old) (known seat.old) part }
        requires allowed { Allows (P.holds self.now.words.key.about) 0 (number seat.old)
            (me_of seat.old) i (λ _. new) (λ _. M.then (step 0 i new 0 none) (me_of seat.old) new) }
        ensures own { IsStill seat.old seat.new }
        ensures told { M.then (step 0 i new 0 none) (me_of seat.old) new (me_of seat.new) }
    {
        let _part = part;
        self.words.store::<Inner<M>>(&mut seat.pass, i, new);
    }
}
