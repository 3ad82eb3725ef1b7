//! How the end of a revision is handed in.
ghost use Rattle.std.specs.Prelude.{◌≡◌, ◌<◌, ◌+◌, ◌/◌, ◌^◌, ◌++◌, ℕ, [], cond, None, MatchBool};
ghost use Rattle.std.specs.Prelude.{OnOk, IfErr};
ghost use Rattle.hub_core.specs.declared.state.HubState.TheVariants.{All};
ghost use Rattle.hub_core.specs.Journaled.{HasRoomFor};
ghost use Rattle.hub_core.specs.Rounds.{stamped};
ghost use Rattle.hub_core.specs.Tally.{pairs, entered};
ghost use Rattle.turn_hub.specs.Plans.{end_deeds};

use crate::hub::TurnHub;
use crate::seat::Place;
use hub_core::{Deed, Desk, Journal, Plan, Revision, Sight};

// How many entries the end of a revision makes.
fn entries_by(by_join: bool) -> usize
    ensures { result ≡ cond by_join 0 1 }
{
    if by_join { 0 } else { 1 }
}

/// The end of a revision that the seat has.
pub(crate) fn plan_end(plan: &mut Plan, of: u32, by_join: bool)
    ensures { (plan.new.deeds.items ≡ end_deeds by_join of) × (plan.new.leaves ≡ None)
        × (plan.new.keeps ≡ None) }
{
    plan.clear();
    if !by_join {
        plan.add(Deed::Commits(of));
    }
    plan.add(Deed::HandsIn(of));
}

/// Its entry, where it makes one.
pub(crate) fn note_end<E>(journal: &mut Journal<E>, count: u32, of: u32, by_join: bool)
    requires { HasRoomFor (cond by_join 0 1) journal.old }
    ensures entries { pairs journal.new.entries.items
        ≡ pairs journal.old.entries.items ++ stamped count (entered (end_deeds by_join of)) }
    ensures room { (more : ℕ) → HasRoomFor (more + cond by_join 0 1) journal.old
        → HasRoomFor more journal.new }
    ensures limit { journal.new.limit ≡ journal.old.limit }
{
    if !by_join {
        journal.enter(count, of);
    }
}

/// How many revisions a tally that is not closed counts.
pub(crate) fn counted(tally: u64) -> u32
    requires { tally < 2 ^ 33 }
    ensures { result ≡ tally / 2 }
{
    (tally / 2) as u32
}

impl<L: Revision> TurnHub<L> {
    ghost use Rattle.hub_core.specs.Seats.{HasEnd, HasTrap};
    ghost use Rattle.turn_hub.specs.Answers.{EndedSays, IsHalted};
    ghost use Rattle.turn_hub.specs.Turns.{IsOpen, IsIn, IsResting};

    // The end of a revision that this seat has and does not keep: one entry, and none where its
    // join trapped it. The turn is given back. The end comes back for want of memory.
    pub(crate) fn end_in(
        &self,
        place: &mut Place<L>,
        mut desk: Box<Desk<L::Runner, L::AtJoin, L::End>>,
        of: u32,
        end: L::End,
    ) -> Result<(), L::End>
        requires own { (place.old.table_id ≡ self.now.turn.shared.table_id)
            × IsOpen place.old.me }
        requires told { (v : Sight L.State) × IsIn L.machine L.ends v place.old.me.0 desk.value
            × MatchBool (L.by_join end) (HasTrap L.machine L.ends v.seat of end)
            (HasEnd L.machine L.ends v.seat of end) }
        requires free { desk.value.state ≡ All }
        requires mine { place.old.me.0.mine ≡ [] }
        ensures own { place.new.table_id ≡ place.old.table_id }
        ensures rests { IsResting place.old.me place.new.me }
        ensures mine { place.new.me.0.mine ≡ [] }
        ensures ok { OnOk result ((v : Sight L.State)
            → IsIn L.machine L.ends v place.old.me.0 desk.value
            → EndedSays L.machine L.ends v.seat place.new.me.0.seat of (L.by_join end)) }
        ensures err { IfErr result (λ e. (e ≡ end) × ((v : Sight L.State)
            → IsIn L.machine L.ends v place.old.me.0 desk.value
            → IsHalted v.seat place.new.me.0.seat)) }
    {
        let by_join = L::is_by_join(&end);
        let held = &mut *desk;
        if !held.journal.reserve(entries_by(by_join)) {
            self.put_home_halted(place, desk);
            return Err(end);
        }
        plan_end(&mut held.plan, of, by_join);
        let (mut desk, tally) = self.carry_out(place, desk);
        let last = &mut *desk;
        note_end(&mut last.journal, counted(tally), of, by_join);
        last.records.end(of, end);
        self.put_home(place, desk);
        Ok(())
    }
}
