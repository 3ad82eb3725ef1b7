//! How the end of a revision is handed in where the seat goes on in the same turn with what comes
//! first.
ghost use Rattle.std.specs.Prelude.{◌≡◌, ◌≤◌, ◌+◌, ◌++◌, ℕ, [], None, MatchBool, IfOk, IfErr, vec_len};
ghost use Rattle.hub_core.specs.declared.state.HubState.TheVariants.{All};
ghost use Rattle.hub_core.specs.Journaled.{HasRoomFor};
ghost use Rattle.hub_core.specs.Rounds.{stamped};
ghost use Rattle.hub_core.specs.Tally.{pairs, entered};
ghost use Rattle.turn_hub.specs.declared.coming.Coming.TheVariants.{Stops};
ghost use Rattle.turn_hub.specs.Plans.{HasPlan, end_deeds};
ghost use Rattle.turn_hub.specs.Comings.{IsComing, IsNoStop, coming_deeds};

use crate::answers::{EndStep, JoinAnswer, Onward};
use crate::coming::Coming;
use crate::ending::{counted, note_end};
use crate::firsts::{coming_after, go_on, plan_coming, take_first};
use crate::hub::TurnHub;
use crate::seat::{HubSeat, Place};
use hub_core::{Deed, Desk, HubState, Journal, Plan, Revision, Sight, empty};
use std::sync::Wait;

// The end of a revision that the seat has, and what comes then.
fn plan_end_on(plan: &mut Plan, of: u32, by_join: bool, coming: Coming)
    ensures { (plan.new.deeds.items ≡ end_deeds by_join of ++ coming_deeds coming)
        × (plan.new.leaves ≡ None) × (plan.new.keeps ≡ None) }
{
    plan.clear();
    if !by_join {
        plan.add(Deed::Commits(of));
    }
    plan.add(Deed::HandsIn(of));
    plan_coming(plan, coming);
}

// The entry of what comes, where that is a joiner.
fn note_coming<E>(journal: &mut Journal<E>, count: u32, coming: Coming)
    requires { HasRoomFor 1 journal.old }
    ensures entries { pairs journal.new.entries.items
        ≡ pairs journal.old.entries.items ++ stamped count (entered (coming_deeds coming)) }
    ensures limit { journal.new.limit ≡ journal.old.limit }
{
    match coming {
        Coming::Nobody | Coming::Takes(_) => {},
        Coming::Claims { number, .. } | Coming::Stops(number) => journal.enter(count, number),
    }
}

// The entries of the end and of what comes.
fn note_end_on<E>(journal: &mut Journal<E>, count: u32, of: u32, by_join: bool, coming: Coming)
    requires { HasRoomFor 2 journal.old }
    ensures entries { pairs journal.new.entries.items ≡ pairs journal.old.entries.items
        ++ stamped count (entered (end_deeds by_join of ++ coming_deeds coming)) }
    ensures limit { journal.new.limit ≡ journal.old.limit }
{
    note_end(journal, count, of, by_join);
    note_coming(journal, count, coming);
}

impl<L: Revision> TurnHub<L> {
    ghost use Rattle.hub_core.specs.Seats.{HasEnd, HasTrap, HadTurn};
    ghost use Rattle.turn_hub.specs.Answers.{EndedOn, IsHalted};
    ghost use Rattle.turn_hub.specs.Turns.{IsOpen, IsIn, IsResting};

    // The plan ends the revision and goes on with what comes first, which does not join Twice. It is
    // carried out, and the turn is given back.
    fn end_planned(
        &self,
        place: &mut Place<L>,
        desk: Box<Desk<L::Runner, L::AtJoin, L::End>>,
        of: u32,
        end: L::End,
        coming: Coming,
    ) -> EndStep<L::Runner, L::AtJoin, L::Claimed, L::Stopped>
        requires own { (place.old.table_id ≡ self.now.turn.shared.table_id)
            × IsOpen place.old.me }
        requires told { (v : Sight L.State) × IsIn L.machine L.ends v place.old.me.0 desk.value
            × MatchBool (L.by_join end) (HasTrap L.machine L.ends v.seat of end)
            (HasEnd L.machine L.ends v.seat of end) }
        requires free { desk.value.state ≡ All }
        requires mine { place.old.me.0.mine ≡ [] }
        requires room { HasRoomFor 2 desk.value.journal }
        requires coming { IsComing L.machine desk.value.records of coming × IsNoStop coming }
        requires plan { HasPlan desk.value (end_deeds (L.by_join end) of ++ coming_deeds coming)
            None None }
        ensures own { place.new.table_id ≡ place.old.table_id }
        ensures rests { IsResting place.old.me place.new.me }
        ensures mine { place.new.me.0.mine ≡ [] }
        ensures answer { (v : Sight L.State) → IsIn L.machine L.ends v place.old.me.0 desk.value
            → EndedOn L.machine L.ends L.claimed L.stopped L.claimed_group L.stopped_group
            v.seat place.new.me.0.seat of end (L.by_join end) result }
    {
        let by_join = L::is_by_join(&end);
        let (mut desk, tally) = self.carry_out(place, desk);
        let last = &mut *desk;
        note_end_on(&mut last.journal, counted(tally), of, by_join, coming);
        last.records.end(of, end);
        let step = go_on::<L>(&mut last.records);
        self.put_home(place, desk);
        step
    }

    // The plan ends the revision and takes the first that waits or is ready, which is a joiner whose
    // joinee was joined before: its entry is the last. It is carried out, and the turn is given back.
    fn stop_planned(
        &self,
        place: &mut Place<L>,
        desk: Box<Desk<L::Runner, L::AtJoin, L::End>>,
        of: u32,
        end: L::End,
        number: u32,
    ) -> EndStep<L::Runner, L::AtJoin, L::Claimed, L::Stopped>
        requires own { (place.old.table_id ≡ self.now.turn.shared.table_id)
            × IsOpen place.old.me }
        requires told { (v : Sight L.State) × IsIn L.machine L.ends v place.old.me.0 desk.value
            × MatchBool (L.by_join end) (HasTrap L.machine L.ends v.seat of end)
            (HasEnd L.machine L.ends v.seat of end) }
        requires free { desk.value.state ≡ All }
        requires mine { place.old.me.0.mine ≡ [] }
        requires room { HasRoomFor 2 desk.value.journal }
        requires coming { IsComing L.machine desk.value.records of (Stops number) }
        requires plan { HasPlan desk.value
            (end_deeds (L.by_join end) of ++ coming_deeds (Stops number)) None None }
        ensures own { place.new.table_id ≡ place.old.table_id }
        ensures rests { IsResting place.old.me place.new.me }
        ensures mine { place.new.me.0.mine ≡ [] }
        ensures answer { (v : Sight L.State) → IsIn L.machine L.ends v place.old.me.0 desk.value
            → EndedOn L.machine L.ends L.claimed L.stopped L.claimed_group L.stopped_group
            v.seat place.new.me.0.seat of end (L.by_join end) result }
    {
        let by_join = L::is_by_join(&end);
        let (mut desk, tally) = self.halt_twice(place, desk);
        let last = &mut *desk;
        let coming = Coming::Stops(number);
        note_end_on(&mut last.journal, counted(tally), of, by_join, coming);
        last.records.end(of, end);
        let next = take_first(&mut last.records);
        last.state = HubState::Twice;
        self.put_home(place, desk);
        match next {
            Onward::Retry { number, at } => {
                EndStep::Came {
                    number,
                    answer: JoinAnswer::Twice(at),
                }
            },
            other => {
                empty(Some(other));
                unreachable!()
            },
        }
    }

    // The end of a revision that this seat has and does not keep, and what comes first then. The
    // turn is given back. The end comes back for want of memory.
    fn end_on(
        &self,
        place: &mut Place<L>,
        mut desk: Box<Desk<L::Runner, L::AtJoin, L::End>>,
        of: u32,
        end: L::End,
    ) -> Result<EndStep<L::Runner, L::AtJoin, L::Claimed, L::Stopped>, L::End>
        requires own { (place.old.table_id ≡ self.now.turn.shared.table_id)
            × IsOpen place.old.me }
        requires told { (v : Sight L.State) × IsIn L.machine L.ends v place.old.me.0 desk.value
            × MatchBool (L.by_join end) (HasTrap L.machine L.ends v.seat of end)
            (HasEnd L.machine L.ends v.seat of end) }
        requires free { desk.value.state ≡ All }
        requires mine { place.old.me.0.mine ≡ [] }
        ensures own { place.new.table_id ≡ place.old.table_id }
        ensures rests { IsResting place.old.me place.new.me }
        ensures mine { place.new.me.0.mine ≡ [] }
        ensures ok { IfOk result (λ n. (v : Sight L.State)
            → IsIn L.machine L.ends v place.old.me.0 desk.value
            → EndedOn L.machine L.ends L.claimed L.stopped L.claimed_group L.stopped_group
            v.seat place.new.me.0.seat of end (L.by_join end) n) }
        ensures err { IfErr result (λ e. (e ≡ end) × ((v : Sight L.State)
            → IsIn L.machine L.ends v place.old.me.0 desk.value
            → IsHalted v.seat place.new.me.0.seat)) }
    {
        let by_join = L::is_by_join(&end);
        let held = &mut *desk;
        if !held.journal.reserve(2) {
            self.put_home_halted(place, desk);
            return Err(end);
        }
        let coming = coming_after::<L>(&held.records, of);
        plan_end_on(&mut held.plan, of, by_join, coming);
        match coming {
            Coming::Stops(number) => Ok(self.stop_planned(place, desk, of, end, number)),
            Coming::Nobody => Ok(self.end_planned(place, desk, of, end, Coming::Nobody)),
            Coming::Takes(number) => {
                Ok(self.end_planned(place, desk, of, end, Coming::Takes(number)))
            },
            Coming::Claims { number, joinee } => {
                let coming = Coming::Claims { number, joinee };
                Ok(self.end_planned(place, desk, of, end, coming))
            },
        }
    }

    /// The same as `end`, and the seat takes what is ready in the same turn. Where that is a joiner,
    /// as each that waited for this end, it joins in that turn too, by one further entry. The end
    /// comes back where there is no memory for both entries.
    pub fn end_and_take<W: Wait>(
        &self,
        rt: &W,
        seat: &mut HubSeat<L>,
        of: u32,
        end: L::End,
    ) -> Result<EndStep<L::Runner, L::AtJoin, L::Claimed, L::Stopped>, L::End>
        requires own { seat.old.place.table_id ≡ self.now.turn.shared.table_id }
        requires event { MatchBool (L.by_join end)
            (HasTrap L.machine L.ends seat.old.place.me.0.seat of end)
            (HasEnd L.machine L.ends seat.old.place.me.0.seat of end) }
        ensures own { seat.new.place.table_id ≡ seat.old.place.table_id }
        ensures turn { HadTurn seat.old.place.me.0.seat seat.new.place.me.0.seat }
        ensures ok { IfOk result (λ n. EndedOn L.machine L.ends L.claimed L.stopped
            L.claimed_group L.stopped_group
            seat.old.place.me.0.seat seat.new.place.me.0.seat of end (L.by_join end) n) }
        ensures err { IfErr result (λ e. (e ≡ end) × IsHalted seat.old.place.me.0.seat
            seat.new.place.me.0.seat) }
    {
        let entered = self.enter_recorded(rt, &mut seat.place, &mut seat.patience, &mut seat.kept);
        let Some(desk) = entered else {
            return Err(end);
        };
        self.end_on(&mut seat.place, desk, of, end)
    }
}
