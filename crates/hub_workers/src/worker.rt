//! One thread's work at a hub.
ghost use Rattle.std.specs.Prelude.{◌≡◌};
ghost use Rattle.turn_hub.specs.Names.{IsSeatOf, view_of};
ghost use Rattle.hub_core.specs.Seats.{IsSameSeat};
ghost use Rattle.hub_workers.specs.Work.{IsHandOf, HasNext};
ghost use Rattle.hub_workers.specs.Handed.{HasHandedIn, OnlyNext};

use crate::bell::Bell;
use crate::coming::come;
use crate::entering::join;
use crate::gate::Gate;
use crate::legs::Legs;
use crate::next::{Behind, Next};
use crate::scout::Scout;
use crate::stepping::step;
use std::sync::Wait;
use turn_hub::{HubSeat, Taken, TurnHub};

// Runs a revision, and what the thread takes behind it, until nothing is ready or a halt was
// entered.
fn drive<L: Legs, G: Gate, W: Wait>(
    rt: &W,
    hub: &TurnHub<L>,
    bell: &Bell,
    gate: &G,
    seat: &mut HubSeat<L>,
    hand: &mut L::Hand,
    first: Next<L::Runner, L::AtJoin, L::Claimed, L::Stopped>,
)
    requires own { IsSeatOf hub.now seat.old }
    requires hand { IsHandOf L.begins L.hand_group (view_of seat.old) hand.old }
    requires next { HasNext L.machine L.ends L.claimed L.stopped
        L.claimed_group L.stopped_group (view_of seat.old) first }
    ensures own { IsSeatOf hub.now seat.new }
    ensures same { IsSameSeat (view_of seat.old) (view_of seat.new) }
    ensures hand { IsHandOf L.begins L.hand_group (view_of seat.new) hand.new }
    ensures only { OnlyNext (view_of seat.old) first → HasHandedIn (view_of seat.new) }
{
    let mut next = first;
    for _ in rt.forever() {
        match next {
            Next::Run {
                number,
                runner,
                behind,
            } => next = step(rt, hub, bell, gate, seat, hand, number, runner, behind),
            Next::Retry { number, at } => next = join(rt, hub, bell, seat, number, at),
            Next::Came { number, answer } => {
                next = come(rt, hub, bell, seat, hand, number, answer, Behind::Nothing);
            },
            Next::Nothing => return,
        }
    }
    unreachable!()
}

/// Takes revisions and runs them until all is over or a halt was entered, which the seat knows
/// then. It hands in each that it takes, unless a halt was entered. A thread that finds nothing
/// ready sleeps until the bell rings.
pub fn work<L: Legs, G: Gate, W: Wait>(
    rt: &W,
    hub: &TurnHub<L>,
    bell: &Bell,
    gate: &G,
    seat: &mut HubSeat<L>,
    hand: &mut L::Hand,
)
    requires own { IsSeatOf hub.now seat.old }
    requires hand { IsHandOf L.begins L.hand_group (view_of seat.old) hand.old }
    ensures own { IsSeatOf hub.now seat.new }
    ensures same { IsSameSeat (view_of seat.old) (view_of seat.new) }
    ensures hand { IsHandOf L.begins L.hand_group (view_of seat.new) hand.new }
    ensures over { (view_of seat.new).saw ≡ 1 }
    ensures handed_in { HasHandedIn (view_of seat.old) → HasHandedIn (view_of seat.new) }
{
    let mut scout = Scout::new();
    for _ in rt.forever() {
        let called = bell.called();
        match hub.take(rt, seat) {
            Taken::Run { number, runner } => {
                scout.pass_on(hub, bell);
                let first = Next::Run {
                    number,
                    runner,
                    behind: Behind::Nothing,
                };
                drive(rt, hub, bell, gate, seat, hand, first);
            },
            Taken::Retry { number, at } => {
                scout.pass_on(hub, bell);
                let first = Next::Retry { number, at };
                drive(rt, hub, bell, gate, seat, hand, first);
            },
            Taken::Idle => scout.rest(rt, hub, bell, called),
            Taken::Finished | Taken::Halted { .. } => {
                bell.ring_all();
                return;
            },
        }
    }
    unreachable!()
}
