//! A leg of a revision, and what its thread does at its event.
ghost use Rattle.std.specs.Prelude.{◌≡◌};
ghost use Rattle.turn_hub.specs.Names.{IsSeatOf, view_of};
ghost use Rattle.hub_core.specs.Seats.{IsSameSeat};
ghost use Rattle.hub_workers.specs.Legs.{Comes, IsEventOf};
ghost use Rattle.hub_workers.specs.Work.{IsHandOf, HasBehind, HasNext};
ghost use Rattle.hub_workers.specs.Handed.{OnlyBehind, OnlyNext};

use crate::bell::Bell;
use crate::clearing::enter;
use crate::coming::come;
use crate::entering::{fork, fork_owing, halt};
use crate::gate::Gate;
use crate::giving::give_up_behind;
use crate::legs::{LegEvent, Legs};
use crate::next::{Behind, Next};
use std::sync::Wait;
use turn_hub::{HubSeat, TurnHub, take_in};

// The event of a leg. A joiner that owes forks in the turn in which it enters that. The thread runs
// a child that it keeps where its forker joins it, with no turn between. A joiner that stays with
// its joinee stays at a fork of that, and takes in its end between two turns. Before any other
// event what stands behind the revision is entered or handed in.
fn go_on<L: Legs, W: Wait>(
    rt: &W,
    hub: &TurnHub<L>,
    bell: &Bell,
    seat: &mut HubSeat<L>,
    hand: &mut L::Hand,
    number: u32,
    event: LegEvent<L::AtFork, L::AtJoin, L::End>,
    behind: Behind<L::Runner, L::AtJoin>,
) -> Next<L::Runner, L::AtJoin, L::Claimed, L::Stopped>
    requires own { IsSeatOf hub.now seat.old }
    requires hand { IsHandOf L.begins L.hand_group (view_of seat.old) hand.old }
    requires comes { (l : L.State) × HasBehind L.machine L.ends (view_of seat.old) number l behind
        × Comes L.machine L.ends L.by_join L.forker L.child l event }
    requires group { IsEventOf L.machine L.fork_group (view_of seat.old).group event }
    ensures own { IsSeatOf hub.now seat.new }
    ensures same { IsSameSeat (view_of seat.old) (view_of seat.new) }
    ensures hand { IsHandOf L.begins L.hand_group (view_of seat.new) hand.new }
    ensures next { HasNext L.machine L.ends L.claimed L.stopped
        L.claimed_group L.stopped_group (view_of seat.new) result }
    ensures only { OnlyBehind (view_of seat.old) number behind
        → OnlyNext (view_of seat.new) result }
{
    match (event, behind) {
        (LegEvent::Fork(at), Behind::Owing { joinee }) => {
            fork_owing(rt, hub, bell, seat, hand, number, at, joinee)
        },
        (LegEvent::Fork(at), Behind::Joiner { joiner, at: waits }) => {
            let behind = Behind::Joiner { joiner, at: waits };
            fork(rt, hub, bell, seat, hand, number, at, behind)
        },
        (LegEvent::Join(at), Behind::Kept { child, kept }) => {
            if L::on(&at) == child {
                return Next::Run {
                    number: child,
                    runner: kept,
                    behind: Behind::Joiner { joiner: number, at },
                };
            }
            let event = LegEvent::Join(at);
            let behind = Behind::Kept { child, kept };
            enter(rt, hub, bell, seat, hand, number, event, behind)
        },
        (LegEvent::End(end), Behind::Joiner { joiner, at }) => {
            let owed = Behind::Owing { joinee: number };
            let answer = take_in::<L>(at, end);
            come(rt, hub, bell, seat, hand, joiner, answer, owed)
        },
        (event, behind) => enter(rt, hub, bell, seat, hand, number, event, behind),
    }
}

/// A leg and its event, and what the thread goes on with.
pub fn step<L: Legs, G: Gate, W: Wait>(
    rt: &W,
    hub: &TurnHub<L>,
    bell: &Bell,
    gate: &G,
    seat: &mut HubSeat<L>,
    hand: &mut L::Hand,
    number: u32,
    runner: L::Runner,
    behind: Behind<L::Runner, L::AtJoin>,
) -> Next<L::Runner, L::AtJoin, L::Claimed, L::Stopped>
    requires own { IsSeatOf hub.now seat.old }
    requires hand { IsHandOf L.begins L.hand_group (view_of seat.old) hand.old }
    requires state { HasBehind L.machine L.ends
        (view_of seat.old) number (L.machine.runs runner) behind }
    requires group { L.machine.runner_group runner ≡ (view_of seat.old).group }
    ensures own { IsSeatOf hub.now seat.new }
    ensures same { IsSameSeat (view_of seat.old) (view_of seat.new) }
    ensures hand { IsHandOf L.begins L.hand_group (view_of seat.new) hand.new }
    ensures next { HasNext L.machine L.ends L.claimed L.stopped
        L.claimed_group L.stopped_group (view_of seat.new) result }
    ensures only { OnlyBehind (view_of seat.old) number behind
        → OnlyNext (view_of seat.new) result }
{
    gate.enter(number);
    match L::run_leg(hand, runner) {
        Ok(event) => go_on(rt, hub, bell, seat, hand, number, event, behind),
        Err(_) => {
            halt(rt, hub, seat);
            give_up_behind::<L>(hand, behind);
            Next::Nothing
        },
    }
}
