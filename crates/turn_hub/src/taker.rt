//! The call that joins, or takes what is ready.
ghost use Rattle.std.specs.Prelude.{◌≡◌, IfOk, IfErr};

use crate::answers::{JoinAnswer, JoinStep};
use crate::hub::TurnHub;
use crate::patience::{WAITS, pause};
use crate::seat::HubSeat;
use hub_core::{Revision, Sight};
use std::sync::Wait;
use std::sync::atomic::Ordering;

impl<L: Revision> TurnHub<L> {
    ghost use Rattle.hub_core.specs.Seats.{HasJoin, HadTurn};
    ghost use Rattle.turn_hub.specs.Answers.{JoinedOn};
    ghost use Rattle.turn_hub.specs.Joinings.{IsBefore};

    // One try of a join, from the turn on.
    fn try_join_on<W: Wait>(
        &self,
        rt: &W,
        seat: &mut HubSeat<L>,
        of: u32,
        at: L::AtJoin,
    ) -> Result<JoinStep<L::Runner, L::AtJoin, L::Claimed, L::Stopped>, L::AtJoin>
        requires own { seat.old.place.table_id ≡ self.now.turn.shared.table_id }
        requires event { HasJoin L.machine L.ends seat.old.place.me.0.seat of at }
        requires group { L.machine.joiner_group at ≡ seat.old.place.me.0.seat.group }
        ensures own { seat.new.place.table_id ≡ seat.old.place.table_id }
        ensures came { IfOk result (λ r.
            HadTurn seat.old.place.me.0.seat seat.new.place.me.0.seat
            × ((v : Sight L.State) → IsBefore L.machine L.ends v seat.old.place.me.0
            → JoinedOn L.machine L.ends L.claimed L.stopped L.claimed_group L.stopped_group
            v.seat seat.new.place.me.0.seat of at r)) }
        ensures sought { IfErr result (λ a. (a ≡ at)
            × IsBefore L.machine L.ends seat.old.place.me.0 seat.new.place.me.0
            × HasJoin L.machine L.ends seat.new.place.me.0.seat of at
            × (seat.new.place.me.0.seat.group ≡ seat.old.place.me.0.seat.group)) }
    {
        let entered = self.enter_recorded(rt, &mut seat.place, &mut seat.patience, &mut seat.kept);
        let Some(desk) = entered else {
            return Ok(JoinStep::Came(JoinAnswer::OutOfMemory(at)));
        };
        match self.join_on(&mut seat.place, desk, of, at) {
            Ok(step) => Ok(step),
            Err(back) => Err(back),
        }
    }

    // Waits and looks again, until the joinee has a record or no seat keeps a child.
    fn seek_join_on<W: Wait>(
        &self,
        rt: &W,
        seat: &mut HubSeat<L>,
        of: u32,
        at: L::AtJoin,
    ) -> JoinStep<L::Runner, L::AtJoin, L::Claimed, L::Stopped>
        requires own { seat.old.place.table_id ≡ self.now.turn.shared.table_id }
        requires event { HasJoin L.machine L.ends seat.old.place.me.0.seat of at }
        requires group { L.machine.joiner_group at ≡ seat.old.place.me.0.seat.group }
        ensures own { seat.new.place.table_id ≡ seat.old.place.table_id }
        ensures turn { HadTurn seat.old.place.me.0.seat seat.new.place.me.0.seat }
        ensures answer { (v : Sight L.State) → IsBefore L.machine L.ends v seat.old.place.me.0
            → JoinedOn L.machine L.ends L.claimed L.stopped L.claimed_group L.stopped_group
            v.seat seat.new.place.me.0.seat of at result }
    {
        let mut at = at;
        for _ in rt.forever() {
            pause(WAITS);
            match self.try_join_on(rt, seat, of, at) {
                Ok(step) => return step,
                Err(back) => at = back,
            }
        }
        unreachable!()
    }

    /// The same as `join`, but in the same turn the seat also takes what is ready where the joinee
    /// has not ended. Where its joinee comes first and is before its leg, it takes that, and the
    /// joiner comes back. Else the hub keeps the joiner.
    pub fn join_or_take<W: Wait>(
        &self,
        rt: &W,
        seat: &mut HubSeat<L>,
        of: u32,
        at: L::AtJoin,
    ) -> JoinStep<L::Runner, L::AtJoin, L::Claimed, L::Stopped>
        requires own { seat.old.place.table_id ≡ self.now.turn.shared.table_id }
        requires event { HasJoin L.machine L.ends seat.old.place.me.0.seat of at }
        requires group { L.machine.joiner_group at ≡ seat.old.place.me.0.seat.group }
        ensures own { seat.new.place.table_id ≡ seat.old.place.table_id }
        ensures turn { HadTurn seat.old.place.me.0.seat seat.new.place.me.0.seat }
        ensures answer { JoinedOn L.machine L.ends L.claimed L.stopped
            L.claimed_group L.stopped_group
            seat.old.place.me.0.seat seat.new.place.me.0.seat of at result }
    {
        match self.try_join_on(rt, seat, of, at) {
            Ok(step) => step,
            Err(back) => {
                self.signs.seekers.fetch_add(1, Ordering::SeqCst);
                let step = self.seek_join_on(rt, seat, of, back);
                self.signs.seekers.fetch_sub(1, Ordering::SeqCst);
                step
            },
        }
    }
}
