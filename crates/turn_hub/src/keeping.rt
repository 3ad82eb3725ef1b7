//! The calls of a seat that keeps the child of its fork.
ghost use Rattle.std.specs.Prelude.{◌≡◌, ◌≢◌, ◌<◌, ◌≤◌, ◌+◌, ◌*◌, ℕ, [], Some, None, IfSome, IfOk, IfErr, MatchOption};
ghost use Rattle.revision_machine.specs.Numbered.{Bears};

use crate::hub::{TALLY, TurnHub};
use crate::kept::number_if;
use crate::seat::{HubSeat, Place};
use crate::tried::Tried;
use hub_core::{Desk, DeskSlot, MakeRound, Revision, Round, Sight, append};
use std::sync::Wait;
use std::sync::atomic::Ordering;

// So often a seat tries to make a round before it takes the turn.
const TRIES: u32 = 8;

impl<L: Revision> TurnHub<L> {
    ghost use Rattle.hub_core.specs.Counts.{times};
    ghost use Rattle.hub_core.specs.Seats.{HadTurn, Owes};
    ghost use Rattle.hub_core.specs.Tally.{HasDesk, MadeRound};
    ghost use Rattle.hub_core.specs.declared.state.HubState.TheVariants.{All};
    ghost use Rattle.turn_hub.specs.Answers.{HaltedBehind, IsHalted};
    ghost use Rattle.turn_hub.specs.Turns.{IsOpen, IsIn, IsResting};
    ghost use Rattle.turn_hub.specs.Plans.{lone_list};
    ghost use Rattle.turn_hub.specs.Keeping.{KeptBehind};

    // A round, where there are so many revisions. The tally is as it was found.
    fn try_round(
        &self,
        place: &mut Place<L>,
        number: u32,
        joinee: u32,
        of: u32,
        child: &L::Runner,
    ) -> u64
        requires own { place.old.table_id ≡ self.now.turn.shared.table_id }
        requires idle { (place.old.me.0.seat.has ≡ 0) × (0 < place.old.me.0.seat.parts) }
        requires event { (l : L.State) × (forker : ℕ → L.State)
            × Owes L.machine L.ends place.old.me.0.seat joinee of l
            × (L.machine.next l ≡ Bears forker (L.machine.runs child.now)) }
        requires kept { 0 < times joinee place.old.me.0.mine }
        requires room { number < place.old.me.0.limit }
        ensures own { place.new.table_id ≡ place.old.table_id }
        ensures made { result ≡ 2 * number
            → MadeRound L.machine L.ends place.old.me.0 place.new.me.0 joinee of number
            × (place.new.me.1 ≡ place.old.me.1) }
        ensures missed { result ≢ 2 * number → place.new.me ≡ place.old.me }
    {
        let told = DeskSlot::Told(joinee, of);
        let count = 2 * number as u64;
        let found = self
            .turn
            .shared
            .compare_exchange_with::<MakeRound<L>>(place, TALLY, count, count + 2, &told);
        told.spend();
        found
    }

    // Some tries for a round: the number of the child.
    fn find_round(
        &self,
        place: &mut Place<L>,
        seen: &mut u64,
        limit: u32,
        joinee: u32,
        of: u32,
        child: &L::Runner,
    ) -> Option<u32>
        requires own { place.old.table_id ≡ self.now.turn.shared.table_id }
        requires idle { (place.old.me.0.seat.has ≡ 0) × (0 < place.old.me.0.seat.parts) }
        requires event { (l : L.State) × (forker : ℕ → L.State)
            × Owes L.machine L.ends place.old.me.0.seat joinee of l
            × (L.machine.next l ≡ Bears forker (L.machine.runs child.now)) }
        requires kept { 0 < times joinee place.old.me.0.mine }
        requires room { limit ≤ place.old.me.0.limit }
        ensures own { place.new.table_id ≡ place.old.table_id }
        ensures made { IfSome result (λ n.
            MadeRound L.machine L.ends place.old.me.0 place.new.me.0 joinee of n
            × (place.new.me.1 ≡ place.old.me.1)) }
        ensures missed { result ≡ None → place.new.me ≡ place.old.me }
    {
        for _ in 0..TRIES {
            let count = *seen / 2;
            if *seen % 2 == 1 || count >= limit as u64 {
                return None;
            }
            let number = count as u32;
            let found = self.try_round(place, number, joinee, of, child);
            if found == 2 * number as u64 {
                *seen = found.saturating_add(2);
                return Some(number);
            }
            *seen = found;
        }
        None
    }

    // The end of the joinee, its join by `of` and the fork of that, by one exchange of the tally
    // and without the turn, where the seat keeps the joinee. The seat keeps the child.
    fn make_round(
        &self,
        seat: &mut HubSeat<L>,
        joinee: u32,
        of: u32,
        child: &L::Runner,
    ) -> Option<u32>
        requires own { seat.old.place.table_id ≡ self.now.turn.shared.table_id }
        requires event { (l : L.State) × (forker : ℕ → L.State)
            × Owes L.machine L.ends seat.old.place.me.0.seat joinee of l
            × (L.machine.next l ≡ Bears forker (L.machine.runs child.now)) }
        requires group { L.machine.runner_group child.now ≡ seat.old.place.me.0.seat.group }
        ensures own { seat.new.place.table_id ≡ seat.old.place.table_id }
        ensures turn { IfSome result (λ _. HadTurn seat.old.place.me.0.seat
            seat.new.place.me.0.seat) }
        ensures told { IfSome result (λ n. (l : L.State)
            → Owes L.machine L.ends seat.old.place.me.0.seat joinee of l
            → KeptBehind L.machine L.ends seat.old.place.me.0.seat seat.new.place.me.0.seat
            joinee of l child.now n child.now) }
        ensures missed { result ≡ None → seat.new.place.me ≡ seat.old.place.me }
    {
        if seat.kept != Some(joinee)
            || self.signs.seekers.load(Ordering::SeqCst) > 0
            || seat.rounds.try_reserve(1).is_err()
        {
            return None;
        }
        let number = self.find_round(
            &mut seat.place,
            &mut seat.seen,
            seat.limit,
            joinee,
            of,
            child,
        )?;
        append(
            &mut seat.rounds,
            Round {
                child: number,
                joinee,
                forker: of,
            },
        );
        seat.kept = Some(number);
        Some(number)
    }

    // Tries until the tally is as it was found, or a halt is entered: the number of the child,
    // whether the seat keeps it, and the limit. The turn is given back.
    fn keep_in<W: Wait>(
        &self,
        rt: &W,
        place: &mut Place<L>,
        desk: Box<Desk<L::Runner, L::AtJoin, L::End>>,
        lone: bool,
        joinee: u32,
        of: u32,
        child: &L::Runner,
    ) -> Option<(u32, bool, u32)>
        requires own { (place.old.table_id ≡ self.now.turn.shared.table_id)
            × IsOpen place.old.me }
        requires hand { HasDesk L.machine L.ends place.old.me.0 desk.value }
        requires free { desk.value.state ≡ All }
        requires mine { place.old.me.0.mine ≡ lone_list lone joinee }
        requires event { (l : L.State) × (forker : ℕ → L.State)
            × Owes L.machine L.ends place.old.me.0.seat joinee of l
            × (L.machine.next l ≡ Bears forker (L.machine.runs child.now)) }
        requires group { L.machine.runner_group child.now ≡ place.old.me.0.seat.group }
        ensures own { place.new.table_id ≡ place.old.table_id }
        ensures rests { IsResting place.old.me place.new.me }
        ensures told { MatchOption result
            ((place.new.me.0.mine ≡ place.old.me.0.mine)
            × ((v : Sight L.State) → IsIn L.machine L.ends v place.old.me.0 desk.value
            → IsHalted v.seat place.new.me.0.seat))
            (λ r. (place.new.me.0.mine ≡ lone_list r.1 r.0) × (r.2 ≤ place.new.me.0.limit)
            × ((v : Sight L.State) → IsIn L.machine L.ends v place.old.me.0 desk.value
            → (l : L.State) → Owes L.machine L.ends v.seat joinee of l
            → KeptBehind L.machine L.ends v.seat place.new.me.0.seat joinee of l child.now r.0
            child.now)) }
    {
        let mut desk = desk;
        for _ in rt.forever() {
            match self.try_keep(place, desk, lone, joinee, of, child) {
                Tried::Made {
                    number,
                    kept,
                    limit,
                } => return Some((number, kept, limit)),
                Tried::Missed(next) => desk = next,
                Tried::Halted => return None,
            }
        }
        unreachable!()
    }

    /// The end of the joinee, the join of it by `of`, which has taken that end in, and the fork of
    /// `of`, whose child the seat takes. It goes by a round where that is possible, which takes no
    /// turn, and else by the turn. The child comes back where a halt was entered, before or by this
    /// call.
    pub fn fork_and_keep<W: Wait>(
        &self,
        rt: &W,
        seat: &mut HubSeat<L>,
        joinee: u32,
        of: u32,
        child: L::Runner,
    ) -> Result<(u32, L::Runner), L::Runner>
        requires own { seat.old.place.table_id ≡ self.now.turn.shared.table_id }
        requires event { (l : L.State) × (forker : ℕ → L.State)
            × Owes L.machine L.ends seat.old.place.me.0.seat joinee of l
            × (L.machine.next l ≡ Bears forker (L.machine.runs child)) }
        requires group { L.machine.runner_group child ≡ seat.old.place.me.0.seat.group }
        ensures own { seat.new.place.table_id ≡ seat.old.place.table_id }
        ensures turn { HadTurn seat.old.place.me.0.seat seat.new.place.me.0.seat }
        ensures ok { IfOk result (λ r. (l : L.State)
            → Owes L.machine L.ends seat.old.place.me.0.seat joinee of l
            → KeptBehind L.machine L.ends seat.old.place.me.0.seat seat.new.place.me.0.seat
            joinee of l child r.0 r.1) }
        ensures err { IfErr result (λ c. (c ≡ child) × ((l : L.State)
            → Owes L.machine L.ends seat.old.place.me.0.seat joinee of l
            → HaltedBehind L.machine L.ends seat.old.place.me.0.seat seat.new.place.me.0.seat
            joinee of l)) }
    {
        if let Some(number) = self.make_round(seat, joinee, of, &child) {
            return Ok((number, child));
        }
        match self.keep_by_turn(rt, seat, joinee, of, &child) {
            Some(number) => Ok((number, child)),
            None => Err(child),
        }
    }

    // The same by the turn.
    fn keep_by_turn<W: Wait>(
        &self,
        rt: &W,
        seat: &mut HubSeat<L>,
        joinee: u32,
        of: u32,
        child: &L::Runner,
    ) -> Option<u32>
        requires own { seat.old.place.table_id ≡ self.now.turn.shared.table_id }
        requires event { (l : L.State) × (forker : ℕ → L.State)
            × Owes L.machine L.ends seat.old.place.me.0.seat joinee of l
            × (L.machine.next l ≡ Bears forker (L.machine.runs child.now)) }
        requires group { L.machine.runner_group child.now ≡ seat.old.place.me.0.seat.group }
        ensures own { seat.new.place.table_id ≡ seat.old.place.table_id }
        ensures turn { HadTurn seat.old.place.me.0.seat seat.new.place.me.0.seat }
        ensures told { MatchOption result
            (IsHalted seat.old.place.me.0.seat seat.new.place.me.0.seat)
            (λ n. (l : L.State) → Owes L.machine L.ends seat.old.place.me.0.seat joinee of l
            → KeptBehind L.machine L.ends seat.old.place.me.0.seat seat.new.place.me.0.seat
            joinee of l child.now n child.now) }
    {
        let desk = self.enter_but(
            rt,
            &mut seat.place,
            &mut seat.patience,
            &mut seat.kept,
            joinee,
        )?;
        let lone = seat.kept.is_some();
        let (number, kept, limit) = self.keep_in(
            rt,
            &mut seat.place,
            desk,
            lone,
            joinee,
            of,
            child,
        )?;
        seat.kept = number_if(kept, number);
        seat.limit = limit;
        seat.seen = 2 * number as u64 + 2;
        Some(number)
    }
}
