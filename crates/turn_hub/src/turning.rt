//! How a turn begins in each call, and how it ends where a halt was entered.
ghost use Rattle.std.specs.Prelude.{◌≡◌, ℕ, [], true, false, Some, None, MatchOption, option_to_list};
ghost use Rattle.hub_core.specs.declared.state.HubState.TheVariants.{All};

use crate::hub::TurnHub;
use crate::patience::Patience;
use crate::seat::Place;
use hub_core::{Desk, HubState, Plan, Revision, Sight};
use std::sync::Wait;

// A child that the seat keeps gets a record.
fn plan_record(plan: &mut Plan, number: u32)
    ensures { (plan.new.deeds.items ≡ []) × (plan.new.leaves ≡ Some number)
        × (plan.new.keeps ≡ None) }
{
    plan.clear();
    plan.leaves = Some(number);
}

impl<L: Revision> TurnHub<L> {
    ghost use Rattle.hub_core.specs.Tally.{HasDesk};
    ghost use Rattle.turn_hub.specs.Answers.{IsHalted};
    ghost use Rattle.turn_hub.specs.Turns.{IsIdle, IsOpen, IsIn, IsResting};
    ghost use Rattle.turn_hub.specs.Plans.{lone_list};
    ghost use Rattle.std.specs.Option.{is_some};

    // Gives the turn back halted: by want of memory, where no halt was entered before.
    pub(crate) fn put_home_halted(
        &self,
        place: &mut Place<L>,
        mut desk: Box<Desk<L::Runner, L::AtJoin, L::End>>,
    )
        requires own { (place.old.table_id ≡ self.now.turn.shared.table_id)
            × IsOpen place.old.me }
        requires hand { HasDesk L.machine L.ends place.old.me.0 desk.value }
        ensures own { place.new.table_id ≡ place.old.table_id }
        ensures rests { IsResting place.old.me place.new.me }
        ensures mine { place.new.me.0.mine ≡ place.old.me.0.mine }
        ensures halted { (v : Sight L.State) → IsIn L.machine L.ends v place.old.me.0 desk.value
            → IsHalted v.seat place.new.me.0.seat }
    {
        let held = &mut *desk;
        if held.halted().is_some() {
            self.put_home(place, desk);
            return;
        }
        held.plan.clear();
        let mut desk = self.halt_no_memory(place, desk);
        let last = &mut *desk;
        last.state = HubState::NoMemory;
        self.put_home(place, desk);
    }

    // Waits for the turn, and gives it back where a halt was entered.
    pub(crate) fn enter_free<W: Wait>(
        &self,
        rt: &W,
        place: &mut Place<L>,
        patience: &mut Patience,
    ) -> Option<Box<Desk<L::Runner, L::AtJoin, L::End>>>
        requires { (place.old.table_id ≡ self.now.turn.shared.table_id) × IsIdle place.old.me }
        ensures own { place.new.table_id ≡ place.old.table_id }
        ensures mine { place.new.me.0.mine ≡ place.old.me.0.mine }
        ensures told { MatchOption result
            (IsResting place.old.me place.new.me × IsHalted place.old.me.0.seat place.new.me.0.seat)
            (λ desk. IsOpen place.new.me × (desk.value.state ≡ All)
            × IsIn L.machine L.ends place.old.me.0 place.new.me.0 desk.value) }
    {
        let desk = self.enter(rt, place, patience);
        if desk.halted().is_some() {
            self.put_home_halted(place, desk);
            return None;
        }
        Some(desk)
    }

    // The child that the seat keeps gets a record, where there is memory, and nothing else changes.
    pub(crate) fn record_kept(
        &self,
        place: &mut Place<L>,
        mut desk: Box<Desk<L::Runner, L::AtJoin, L::End>>,
        kept: &mut Option<u32>,
    ) -> (Box<Desk<L::Runner, L::AtJoin, L::End>>, bool)
        requires own { (place.old.table_id ≡ self.now.turn.shared.table_id)
            × IsOpen place.old.me }
        requires hand { HasDesk L.machine L.ends place.old.me.0 desk.value }
        requires free { desk.value.state ≡ All }
        requires mine { place.old.me.0.mine ≡ option_to_list kept.old }
        ensures own { (place.new.table_id ≡ place.old.table_id) × IsOpen place.new.me }
        ensures free { result.0.value.state ≡ All }
        ensures mine { place.new.me.0.mine ≡ option_to_list kept.new }
        ensures none { result.1 ≡ true → kept.new ≡ None }
        ensures hand { HasDesk L.machine L.ends place.new.me.0 result.0.value }
        ensures told { (v : Sight L.State) → IsIn L.machine L.ends v place.old.me.0 desk.value
            → IsIn L.machine L.ends v place.new.me.0 result.0.value }
    {
        let Some(number) = *kept else {
            return (desk, true);
        };
        let held = &mut *desk;
        if !held.records.reach(number) {
            return (desk, false);
        }
        plan_record(&mut held.plan, number);
        let (mut desk, _) = self.carry_out(place, desk);
        let last = &mut *desk;
        last.records.record_kept(number);
        last.lent -= 1;
        *kept = None;
        (desk, true)
    }

    // Waits for the turn, and the child that the seat keeps gets a record. The turn is given back
    // where a halt was entered, or is entered for want of memory.
    pub(crate) fn enter_recorded<W: Wait>(
        &self,
        rt: &W,
        place: &mut Place<L>,
        patience: &mut Patience,
        kept: &mut Option<u32>,
    ) -> Option<Box<Desk<L::Runner, L::AtJoin, L::End>>>
        requires own { (place.old.table_id ≡ self.now.turn.shared.table_id)
            × IsIdle place.old.me }
        requires mine { place.old.me.0.mine ≡ option_to_list kept.old }
        ensures own { place.new.table_id ≡ place.old.table_id }
        ensures mine { place.new.me.0.mine ≡ option_to_list kept.new }
        ensures told { MatchOption result
            (IsResting place.old.me place.new.me × IsHalted place.old.me.0.seat place.new.me.0.seat)
            (λ desk. IsOpen place.new.me × (desk.value.state ≡ All)
            × (place.new.me.0.mine ≡ [])
            × IsIn L.machine L.ends place.old.me.0 place.new.me.0 desk.value) }
    {
        let desk = self.enter_free(rt, place, patience)?;
        let (desk, recorded) = self.record_kept(place, desk, kept);
        if !recorded {
            self.put_home_halted(place, desk);
            return None;
        }
        Some(desk)
    }

    // The same, but the child that the seat keeps gets no record where it is this one.
    pub(crate) fn enter_but<W: Wait>(
        &self,
        rt: &W,
        place: &mut Place<L>,
        patience: &mut Patience,
        kept: &mut Option<u32>,
        joinee: u32,
    ) -> Option<Box<Desk<L::Runner, L::AtJoin, L::End>>>
        requires own { (place.old.table_id ≡ self.now.turn.shared.table_id)
            × IsIdle place.old.me }
        requires mine { place.old.me.0.mine ≡ option_to_list kept.old }
        ensures own { place.new.table_id ≡ place.old.table_id }
        ensures mine { place.new.me.0.mine ≡ option_to_list kept.new }
        ensures told { MatchOption result
            (IsResting place.old.me place.new.me × IsHalted place.old.me.0.seat place.new.me.0.seat)
            (λ desk. IsOpen place.new.me × (desk.value.state ≡ All)
            × (place.new.me.0.mine ≡ lone_list (is_some kept.new) joinee)
            × IsIn L.machine L.ends place.old.me.0 place.new.me.0 desk.value) }
    {
        let desk = self.enter_free(rt, place, patience)?;
        if *kept == Some(joinee) {
            return Some(desk);
        }
        let (desk, recorded) = self.record_kept(place, desk, kept);
        if !recorded {
            self.put_home_halted(place, desk);
            return None;
        }
        Some(desk)
    }
}
