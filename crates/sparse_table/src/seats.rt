//! How a view is cut in two, and how two are joined.
ghost use Rattle.std.specs.Prelude.{◌≡◌};
ghost use Rattle.atomic_table.specs.Table.{Splits, Joins};
ghost use Rattle.sparse_table.specs.Seats.{IsOf, IsStill, view, number, known};

use crate::plays::{Pair, Twin};
use crate::rule::PartRule;
use crate::table::{Seat, Table};
use atomic_table::{Join, Split};

impl<V, K, P: PartRule<V, K>> Table<V, K, P> {
    /// It costs one load, which is the step for the proof.
    pub fn split_seat<M: Split<V>>(&self, seat: &mut Seat<V>) -> Seat<V>
        requires own { IsOf self.now seat.old }
        requires splits { Splits (P.holds self.now.words.key.about) (number seat.old)
            (view seat.old) (M.left (view seat.old)) (M.right (view seat.old)) }
        ensures own { IsStill seat.old seat.new × (view seat.new ≡ M.left (view seat.old)) }
        ensures given { IsOf self.now result × (view result ≡ M.right (view seat.old))
            × (known result ≡ known seat.old) }
    {
        let pass = self.words.split_seat::<Twin<M>>(&mut seat.pass);
        Seat { pass }
    }

    /// It costs one load, which is the step for the proof.
    pub fn join_seat<M: Join<V>>(&self, seat: &mut Seat<V>, other: Seat<V>)
        requires own { IsOf self.now seat.old × IsOf self.now other }
        requires joins { Joins (P.holds self.now.words.key.about) (number seat.old)
            (view seat.old) (number other) (view other) (M.both (view seat.old) (view other))
            M.spent }
        ensures own { IsStill seat.old seat.new
            × (view seat.new ≡ M.both (view seat.old) (view other)) }
    {
        let Seat { pass } = other;
        self.words.join_seat::<Pair<M>>(&mut seat.pass, pass);
    }
}
