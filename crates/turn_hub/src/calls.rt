//! The calls in a turn.
ghost use Rattle.std.specs.Prelude.{◌≡◌, Some, IfErr, OnOk, MatchBool};

use crate::answers::{Onward, Taken};
use crate::hub::TurnHub;
use crate::seat::HubSeat;
use hub_core::Revision;
use std::sync::Wait;

impl<L: Revision> TurnHub<L> {
    ghost use Rattle.hub_core.specs.Seats.{HasEnd, HasTrap, HadTurn};
    ghost use Rattle.turn_hub.specs.Answers.{EndedSays, IsHalted, TakenSays};

    /// Takes a revision that is ready, if there is one.
    /// Idle: nothing is ready, and something is unfinished. Finished: nothing is unfinished.
    /// Halted: a halt was entered, which comes before all others.
    pub fn take<W: Wait>(&self, rt: &W, seat: &mut HubSeat<L>) -> Taken<L::Runner, L::AtJoin>
        requires own { seat.old.place.table_id ≡ self.now.turn.shared.table_id }
        ensures own { seat.new.place.table_id ≡ seat.old.place.table_id }
        ensures turn { HadTurn seat.old.place.me.0.seat seat.new.place.me.0.seat }
        ensures answer { TakenSays L.machine L.ends seat.old.place.me.0.seat
            seat.new.place.me.0.seat result }
    {
        let desk = self.enter(rt, &mut seat.place, &mut seat.patience);
        if let Some(twice) = desk.halted() {
            self.put_home(&mut seat.place, desk);
            return Taken::Halted { twice };
        }
        let over = desk.records.queue.unfinished == 0;
        match self.take_next(&mut seat.place, desk) {
            Onward::Run { number, runner } => Taken::Run { number, runner },
            Onward::Retry { number, at } => Taken::Retry { number, at },
            Onward::Nothing => { if over { Taken::Finished } else { Taken::Idle } },
        }
    }

    /// Hands in the end of the revision `of`. Where its join trapped it, this is no entry. The end
    /// comes back for want of memory, which is then entered, and after a halt.
    pub fn end<W: Wait>(
        &self,
        rt: &W,
        seat: &mut HubSeat<L>,
        of: u32,
        end: L::End,
    ) -> Result<(), L::End>
        requires own { seat.old.place.table_id ≡ self.now.turn.shared.table_id }
        requires event { MatchBool (L.by_join end)
            (HasTrap L.machine L.ends seat.old.place.me.0.seat of end)
            (HasEnd L.machine L.ends seat.old.place.me.0.seat of end) }
        ensures own { seat.new.place.table_id ≡ seat.old.place.table_id }
        ensures turn { HadTurn seat.old.place.me.0.seat seat.new.place.me.0.seat }
        ensures ok { OnOk result (EndedSays L.machine L.ends seat.old.place.me.0.seat
            seat.new.place.me.0.seat of (L.by_join end)) }
        ensures err { IfErr result (λ e. (e ≡ end) × IsHalted seat.old.place.me.0.seat
            seat.new.place.me.0.seat) }
    {
        let entered = self.enter_recorded(rt, &mut seat.place, &mut seat.patience, &mut seat.kept);
        let Some(desk) = entered else {
            return Err(end);
        };
        self.end_in(&mut seat.place, desk, of, end)
    }

    /// Enters want of memory, where nothing was entered before.
    pub fn halt<W: Wait>(&self, rt: &W, seat: &mut HubSeat<L>)
        requires own { seat.old.place.table_id ≡ self.now.turn.shared.table_id }
        ensures own { seat.new.place.table_id ≡ seat.old.place.table_id }
        ensures turn { HadTurn seat.old.place.me.0.seat seat.new.place.me.0.seat }
        ensures halted { IsHalted seat.old.place.me.0.seat seat.new.place.me.0.seat }
    {
        let entered = self.enter(rt, &mut seat.place, &mut seat.patience);
        self.put_home_halted(&mut seat.place, entered);
    }
}
