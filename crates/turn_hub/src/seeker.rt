//! The call that joins.
ghost use Rattle.std.specs.Prelude.{◌≡◌, IfOk, IfErr};

use crate::answers::JoinAnswer;
use crate::hub::TurnHub;
use crate::patience::{WAITS, pause};
use crate::seat::HubSeat;
use hub_core::{Revision, Sight};
use std::sync::Wait;
use std::sync::atomic::Ordering;

impl<L: Revision> TurnHub<L> {
    ghost use Rattle.hub_core.specs.Seats.{HasJoin, HadTurn};
    ghost use Rattle.turn_hub.specs.Answers.{JoinSays};
    ghost use Rattle.turn_hub.specs.Joinings.{IsBefore};

    // One try of a join, from the turn on.
    fn try_join<W: Wait>(
        &self,
        rt: &W,
        seat: &mut HubSeat<L>,
        of: u32,
        at: L::AtJoin,
    ) -> Result<JoinAnswer<L::AtJoin, L::Claimed, L::Stopped>, L::AtJoin>
        requires own { seat.old.place.table_id ≡ self.now.turn.shared.table_id }
        requires event { HasJoin L.machine L.ends seat.old.place.me.0.seat of at }
        requires group { L.machine.joiner_group at ≡ seat.old.place.me.0.seat.group }
        ensures own { seat.new.place.table_id ≡ seat.old.place.table_id }
        ensures came { IfOk result (λ r.
            HadTurn seat.old.place.me.0.seat seat.new.place.me.0.seat
            × ((v : Sight L.State) → IsBefore L.machine L.ends v seat.old.place.me.0
            → JoinSays L.machine L.ends L.claimed L.stopped L.claimed_group L.stopped_group
            v.seat seat.new.place.me.0.seat of at r)) }
        ensures sought { IfErr result (λ a. (a ≡ at)
            × IsBefore L.machine L.ends seat.old.place.me.0 seat.new.place.me.0
            × HasJoin L.machine L.ends seat.new.place.me.0.seat of at
            × (seat.new.place.me.0.seat.group ≡ seat.old.place.me.0.seat.group)) }
    {
        let entered = self.enter_recorded(rt, &mut seat.place, &mut seat.patience, &mut seat.kept);
        let Some(desk) = entered else {
            return Ok(JoinAnswer::OutOfMemory(at));
        };
        match self.join_in(&mut seat.place, desk, of, at) {
            Ok(answer) => Ok(answer),
            Err(back) => Err(back),
        }
    }

    // Waits and looks again, until the joinee has a record or no seat keeps a child.
    fn seek_join<W: Wait>(
        &self,
        rt: &W,
        seat: &mut HubSeat<L>,
        of: u32,
        at: L::AtJoin,
    ) -> JoinAnswer<L::AtJoin, L::Claimed, L::Stopped>
        requires own { seat.old.place.table_id ≡ self.now.turn.shared.table_id }
        requires event { HasJoin L.machine L.ends seat.old.place.me.0.seat of at }
        requires group { L.machine.joiner_group at ≡ seat.old.place.me.0.seat.group }
        ensures own { seat.new.place.table_id ≡ seat.old.place.table_id }
        ensures turn { HadTurn seat.old.place.me.0.seat seat.new.place.me.0.seat }
        ensures answer { (v : Sight L.State) → IsBefore L.machine L.ends v seat.old.place.me.0
            → JoinSays L.machine L.ends L.claimed L.stopped L.claimed_group L.stopped_group
            v.seat seat.new.place.me.0.seat of at result }
    {
        let mut at = at;
        for _ in rt.forever() {
            pause(WAITS);
            match self.try_join(rt, seat, of, at) {
                Ok(answer) => return answer,
                Err(back) => at = back,
            }
        }
        unreachable!()
    }

    /// Hands in a joiner, the revision `of`. Where its joinee has ended, it comes back with the
    /// joinee's end taken in. Waits: the joinee has not ended, and the hub keeps the joiner. Twice:
    /// the joinee was joined before. Trapped and Dropped: it ended by a trap, which the joiner does
    /// not outlive, or does. OutOfMemory: a halt was entered, before or by this call. Where the hub
    /// has no record of the joinee and seats keep children, the call waits first.
    pub fn join<W: Wait>(
        &self,
        rt: &W,
        seat: &mut HubSeat<L>,
        of: u32,
        at: L::AtJoin,
    ) -> JoinAnswer<L::AtJoin, L::Claimed, L::Stopped>
        requires own { seat.old.place.table_id ≡ self.now.turn.shared.table_id }
        requires event { HasJoin L.machine L.ends seat.old.place.me.0.seat of at }
        requires group { L.machine.joiner_group at ≡ seat.old.place.me.0.seat.group }
        ensures own { seat.new.place.table_id ≡ seat.old.place.table_id }
        ensures turn { HadTurn seat.old.place.me.0.seat seat.new.place.me.0.seat }
        ensures answer { JoinSays L.machine L.ends L.claimed L.stopped
            L.claimed_group L.stopped_group
            seat.old.place.me.0.seat seat.new.place.me.0.seat of at result }
    {
        match self.try_join(rt, seat, of, at) {
            Ok(answer) => answer,
            Err(back) => {
                self.signs.seekers.fetch_add(1, Ordering::SeqCst);
                let answer = self.seek_join(rt, seat, of, back);
                self.signs.seekers.fetch_sub(1, Ordering::SeqCst);
                answer
            },
        }
    }
}
