//! The rule of the turn and of the tally, and what its steps tell.
ghost use Rattle.hub_core.specs.declared.state.HubState.TheVariants as state;
ghost use Rattle.hub_core.specs.Tally.{Tallied, both_of, most_of, part_from, witness_of};
ghost use Rattle.hub_core.specs.Tally.{blank_sight};
ghost use Rattle.hub_core.specs.TallySteps.{first_sight, took_turn, gave_turn, passed_turn, widened};
ghost use Rattle.hub_core.specs.TallySteps.{planned, planned_fork, planned_halt, made_round};

use crate::desk::DeskSlot;
use crate::revision::Revision;
use crate::sight::Sight;
use atomic_table::{Badge, Join, Play, Split, TableRule};
use std::marker::PhantomData;

/// At most one seat has the turn, and the tally counts the revisions. The key is a badge whose view
/// has the start and the number of seats.
pub struct TallyRule<L: Revision> {
    of: PhantomData<L>,
}

impl<L: Revision> TableRule<
    DeskSlot<L::Runner, L::AtJoin, L::End>,
    Sight<L::State>,
    Badge<Sight<L::State>>,
> for TallyRule<L> {
    ghost holds = { λ key. Tallied L.machine L.ends (first_sight key.views) };

    ghost first = { λ key. first_sight key.views };
}

/// A seat takes the turn, with the value in the slot.
pub struct TakeTurn<L: Revision> {
    of: PhantomData<L>,
}

impl<L: Revision> Play<DeskSlot<L::Runner, L::AtJoin, L::End>, Sight<L::State>> for TakeTurn<L> {
    ghost then = { took_turn L.machine L.ends };
}

/// A seat gives the turn back, with what it did.
pub struct GiveTurn<L: Revision> {
    of: PhantomData<L>,
}

impl<L: Revision> Play<DeskSlot<L::Runner, L::AtJoin, L::End>, Sight<L::State>> for GiveTurn<L> {
    ghost then = { gave_turn L.machine L.ends };
}

/// The turn is given back as if there had been none.
pub struct PassTurn<L: Revision> {
    of: PhantomData<L>,
}

impl<L: Revision> Play<DeskSlot<L::Runner, L::AtJoin, L::End>, Sight<L::State>> for PassTurn<L> {
    ghost then = { passed_turn L.machine L.ends };
}

/// There is room for the numbers below the limit of the value in the slot.
pub struct Widen<L: Revision> {
    of: PhantomData<L>,
}

impl<L: Revision> Play<DeskSlot<L::Runner, L::AtJoin, L::End>, Sight<L::State>> for Widen<L> {
    ghost then = { widened L.machine L.ends };
}

/// The plan of the value in the slot is carried out.
pub struct CarryOut<L: Revision> {
    of: PhantomData<L>,
}

impl<L: Revision> Play<DeskSlot<L::Runner, L::AtJoin, L::End>, Sight<L::State>> for CarryOut<L> {
    ghost then = { planned L.machine L.ends };
}

/// The same, and the last entry is a fork.
pub struct Fork<L: Revision> {
    of: PhantomData<L>,
}

impl<L: Revision> Play<DeskSlot<L::Runner, L::AtJoin, L::End>, Sight<L::State>> for Fork<L> {
    ghost then = { planned_fork L.machine L.ends };
}

/// The plan of the value in the slot is carried out, and the run ends since a revision joins twice.
pub struct HaltTwice<L: Revision> {
    of: PhantomData<L>,
}

impl<L: Revision> Play<DeskSlot<L::Runner, L::AtJoin, L::End>, Sight<L::State>> for HaltTwice<L> {
    ghost then = { planned_halt L.machine L.ends state.Twice };
}

/// The plan of the value in the slot is carried out, and the run ends for want of memory.
pub struct HaltNoMemory<L: Revision> {
    of: PhantomData<L>,
}

impl<L: Revision> Play<DeskSlot<L::Runner, L::AtJoin, L::End>, Sight<L::State>>
    for HaltNoMemory<L> {
    ghost then = { planned_halt L.machine L.ends state.NoMemory };
}

/// A round, by a seat that has not the turn.
pub struct MakeRound<L: Revision> {
    of: PhantomData<L>,
}

impl<L: Revision> Play<DeskSlot<L::Runner, L::AtJoin, L::End>, Sight<L::State>> for MakeRound<L> {
    ghost then = { made_round L.machine L.ends };
}

/// A seat is cut in two: the one keeps its rounds, and the other begins with none.
pub struct OneMore<L: Revision> {
    of: PhantomData<L>,
}

impl<L: Revision> Split<Sight<L::State>> for OneMore<L> {
    ghost left = { most_of };

    ghost right = { part_from };
}

/// A seat is cut into itself and a witness of it.
pub struct Tell<L: Revision> {
    of: PhantomData<L>,
}

impl<L: Revision> Split<Sight<L::State>> for Tell<L> {
    ghost left = { λ v. v };

    ghost right = { witness_of };
}

/// Two parts become one seat.
pub struct Seated<L: Revision> {
    of: PhantomData<L>,
}

impl<L: Revision> Join<Sight<L::State>> for Seated<L> {
    ghost both = { both_of };

    ghost spent = { blank_sight };
}
