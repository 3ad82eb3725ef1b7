//! How the memory of a part is written.
ghost use Rattle.std.specs.Prelude.{◌≡◌, ◌∷◌};
ghost use Rattle.sparse_table.specs.Seats.{IsOf, IsPartOf, IsSame, Sole, view, number, known};

use crate::plays::{Begin, Enter, Take};
use crate::rule::PartRule;
use crate::table::{Seat, Table};
use crate::zeros::write_zeros;

impl<V, K, P: PartRule<V, K>> Table<V, K, P> {
    /// Writes the words of the part but the first, where it is not there. In both cases the seat knows
    /// from then on that it is.
    pub fn attach(&self, seat: &mut Seat<V>, part: usize)
        requires own { IsOf self.now seat.old × IsPartOf self.now part }
        requires sole { Sole (P.holds self.now.words.key.about) P.makes (number seat.old)
            (view seat.old) part }
        ensures own { IsSame seat.old seat.new × (view seat.new ≡ view seat.old) }
        ensures there { known seat.new ≡ part ∷ known seat.old }
    {
        let flag = self.head(part) + 1;
        if self.words.load::<Begin>(&mut seat.pass, flag) > 0 {
            return;
        }
        let count = self.width - 1;
        let from = part + 1;
        let mut span = self
            .words
            .take::<Take>(&mut seat.pass, flag, 2, from, count);
        write_zeros(&mut span, 0, count);
        self.words.lay::<Enter>(&mut seat.pass, flag, 1, from, span);
    }
}
