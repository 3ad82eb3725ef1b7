//! The calls of a seat whose joiner stayed with it while the joinee ran there. The joiner takes the
//! end in without a turn, and the seat enters both in its next one.
ghost use Rattle.std.specs.Prelude.{◌≡◌, ◌++◌, ℕ, [], ◌∷◌, true, false, None};
ghost use Rattle.hub_core.specs.declared.state.HubState.TheVariants.{All};
ghost use Rattle.hub_core.specs.Journaled.{HasRoomFor};
ghost use Rattle.hub_core.specs.Tally.{pairs};
ghost use Rattle.turn_hub.specs.Plans.{settle_deeds, lone_of};

use crate::ending::counted;
use crate::hub::TurnHub;
use crate::kept::{number_if, settle_value};
use crate::seat::{HubSeat, Place};
use hub_core::{Deed, Desk, Journal, Plan, Revision, Sight};
use std::sync::Wait;

// The end of the joinee and its join by `of`.
fn plan_settle(plan: &mut Plan, joinee: u32, of: u32, lone: bool)
    ensures { (plan.new.deeds.items ≡ settle_deeds joinee of)
        × (plan.new.leaves ≡ lone_of lone joinee) × (plan.new.keeps ≡ None) }
{
    plan.clear();
    plan.add(Deed::Commits(joinee));
    plan.add(Deed::HandsIn(joinee));
    plan.add(Deed::Commits(of));
    plan.leaves = number_if(lone, joinee);
}

// The entries of the joinee and of its joiner.
fn note_settle<E>(journal: &mut Journal<E>, count: u32, joinee: u32, of: u32)
    requires { HasRoomFor 2 journal.old }
    ensures entries { pairs journal.new.entries.items
        ≡ pairs journal.old.entries.items ++ (count, joinee) ∷ (count, of) ∷ [] }
    ensures limit { journal.new.limit ≡ journal.old.limit }
{
    journal.enter(count, joinee);
    journal.enter(count, of);
}

impl<L: Revision> TurnHub<L> {
    ghost use Rattle.hub_core.specs.Seats.{HadTurn, Owes};
    ghost use Rattle.turn_hub.specs.Answers.{Settled, IsHalted};
    ghost use Rattle.turn_hub.specs.Turns.{IsOpen, IsIn, IsResting};
    ghost use Rattle.turn_hub.specs.Plans.{lone_list};

    // The end of the joinee and the join of it by `of`, both of which this seat has: two entries,
    // or for want of memory none. The turn is given back.
    fn settle_in(
        &self,
        place: &mut Place<L>,
        mut desk: Box<Desk<L::Runner, L::AtJoin, L::End>>,
        lone: bool,
        joinee: u32,
        of: u32,
    ) -> bool
        requires own { (place.old.table_id ≡ self.now.turn.shared.table_id)
            × IsOpen place.old.me }
        requires told { (v : Sight L.State) × (l : L.State)
            × IsIn L.machine L.ends v place.old.me.0 desk.value
            × Owes L.machine L.ends v.seat joinee of l }
        requires free { desk.value.state ≡ All }
        requires mine { place.old.me.0.mine ≡ lone_list lone joinee }
        ensures own { place.new.table_id ≡ place.old.table_id }
        ensures rests { IsResting place.old.me place.new.me }
        ensures done { result ≡ true → (place.new.me.0.mine ≡ [])
            × ((v : Sight L.State) → IsIn L.machine L.ends v place.old.me.0 desk.value
            → (l : L.State) → Owes L.machine L.ends v.seat joinee of l
            → Settled L.machine L.ends v.seat place.new.me.0.seat joinee of l) }
        ensures none { result ≡ false → (place.new.me.0.mine ≡ place.old.me.0.mine)
            × ((v : Sight L.State) → IsIn L.machine L.ends v place.old.me.0 desk.value
            → IsHalted v.seat place.new.me.0.seat) }
    {
        let held = &mut *desk;
        if !held.journal.reserve(2) {
            self.put_home_halted(place, desk);
            return false;
        }
        plan_settle(&mut held.plan, joinee, of, lone);
        let (mut desk, tally) = self.carry_out(place, desk);
        let last = &mut *desk;
        settle_value(last, joinee, lone);
        note_settle(&mut last.journal, counted(tally), joinee, of);
        self.put_home(place, desk);
        true
    }

    /// Enters the end of the joinee and the join of it by `of`, which has taken that end in.
    /// `false`: a halt was entered, before or by this call, and neither is an entry.
    pub fn settle<W: Wait>(&self, rt: &W, seat: &mut HubSeat<L>, joinee: u32, of: u32) -> bool
        requires own { seat.old.place.table_id ≡ self.now.turn.shared.table_id }
        requires event { (l : L.State)
            × Owes L.machine L.ends seat.old.place.me.0.seat joinee of l }
        ensures own { seat.new.place.table_id ≡ seat.old.place.table_id }
        ensures turn { HadTurn seat.old.place.me.0.seat seat.new.place.me.0.seat }
        ensures done { result ≡ true → (l : L.State)
            → Owes L.machine L.ends seat.old.place.me.0.seat joinee of l
            → Settled L.machine L.ends seat.old.place.me.0.seat seat.new.place.me.0.seat joinee of
            l }
        ensures halted { result ≡ false
            → IsHalted seat.old.place.me.0.seat seat.new.place.me.0.seat }
    {
        let entered = self.enter_but(
            rt,
            &mut seat.place,
            &mut seat.patience,
            &mut seat.kept,
            joinee,
        );
        let Some(desk) = entered else {
            return false;
        };
        let lone = seat.kept.is_some();
        if !self.settle_in(&mut seat.place, desk, lone, joinee, of) {
            return false;
        }
        seat.kept = None;
        true
    }
}
