//! How a view is cut in two, and how two are joined.
ghost use Rattle.std.specs.Prelude.{◌≡◌, ◌<◌};
ghost use Rattle.sparse_table.specs.Words.{Splits, Joins};

use crate::words::{Seat, WordRule, Words};
use atomic_table::{Join, Split};
use std::marker::{Brand, PhantomData};
use std::sync::atomic::Ordering::SeqCst;
use std::sync::atomic::raw;

impl<V, K, P: WordRule<V, K>> Words<V, K, P> {
    /// Cuts the view of a seat in two, of which a new seat has the second. A view changes only at a
    /// step, so this and `join_seat` load word 0 and ignore what they find.
    pub fn split_seat<M: Split<V>>(&self, seat: &mut Seat<V>) -> Seat<V>
        requires { (seat.old.words ≡ self.now.id) × (0 < self.now.id.words)
            × Splits (P.holds self.now.key) seat.old.id seat.old.view (M.left seat.old.view)
            (M.right seat.old.view) }
        ensures { (seat.new.words ≡ seat.old.words) × (seat.new.id ≡ seat.old.id)
            × (seat.new.view ≡ M.left seat.old.view) × (result.words ≡ seat.old.words)
            × (result.view ≡ M.right seat.old.view) }
    {
        unsafe { raw::load::<Brand>(self.ptr, SeqCst) };
        Seat {
            marker: PhantomData,
        }
    }

    fn merge<M: Join<V>>(&self, seat: &mut Seat<V>, other: &mut Seat<V>)
        requires { (seat.old.words ≡ self.now.id) × (other.old.words ≡ self.now.id)
            × (0 < self.now.id.words)
            × Joins (P.holds self.now.key) seat.old.id seat.old.view other.old.id other.old.view
            (M.both seat.old.view other.old.view) M.spent }
        ensures { (seat.new.words ≡ seat.old.words) × (seat.new.id ≡ seat.old.id)
            × (seat.new.view ≡ M.both seat.old.view other.old.view) }
    {
        unsafe { raw::load::<Brand>(self.ptr, SeqCst) };
    }

    /// The seat takes in the view of the other, which is spent.
    pub fn join_seat<M: Join<V>>(&self, seat: &mut Seat<V>, mut other: Seat<V>)
        requires { (seat.old.words ≡ self.now.id) × (other.words ≡ self.now.id)
            × (0 < self.now.id.words)
            × Joins (P.holds self.now.key) seat.old.id seat.old.view other.id other.view
            (M.both seat.old.view other.view) M.spent }
        ensures { (seat.new.words ≡ seat.old.words) × (seat.new.id ≡ seat.old.id)
            × (seat.new.view ≡ M.both seat.old.view other.view) }
    {
        self.merge::<M>(seat, &mut other);
    }
}
