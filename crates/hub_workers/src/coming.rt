//! How the join of a joiner came out.
ghost use Rattle.std.specs.Prelude.{◌≡◌};
ghost use Rattle.turn_hub.specs.Names.{IsSeatOf, view_of};
ghost use Rattle.hub_core.specs.Seats.{IsSameSeat};
ghost use Rattle.hub_workers.specs.Work.{IsHandOf, HasClaimed, HasAnswer, HasNext};
ghost use Rattle.hub_workers.specs.Handed.{OnlyAnswer, OnlyBehind, OnlyNext};

use crate::bell::Bell;
use crate::clearing::enter;
use crate::entering::halt;
use crate::giving::give_up_behind;
use crate::legs::{LegEvent, Legs, SettledLeg};
use crate::next::{Behind, Next};
use std::sync::Wait;
use turn_hub::{HubSeat, JoinAnswer, TurnHub};

// What becomes of a joiner that has taken an end in.
fn settle<L: Legs, W: Wait>(
    rt: &W,
    hub: &TurnHub<L>,
    bell: &Bell,
    seat: &mut HubSeat<L>,
    hand: &mut L::Hand,
    number: u32,
    claimed: L::Claimed,
    behind: Behind<L::Runner, L::AtJoin>,
) -> Next<L::Runner, L::AtJoin, L::Claimed, L::Stopped>
    requires own { IsSeatOf hub.now seat.old }
    requires hand { IsHandOf L.begins L.hand_group (view_of seat.old) hand.old }
    requires state { HasClaimed L.machine L.ends L.claimed
        (view_of seat.old) number behind claimed }
    requires group { L.claimed_group claimed ≡ (view_of seat.old).group }
    ensures own { IsSeatOf hub.now seat.new }
    ensures same { IsSameSeat (view_of seat.old) (view_of seat.new) }
    ensures hand { IsHandOf L.begins L.hand_group (view_of seat.new) hand.new }
    ensures next { HasNext L.machine L.ends L.claimed L.stopped
        L.claimed_group L.stopped_group (view_of seat.new) result }
    ensures only { OnlyBehind (view_of seat.old) number behind
        → OnlyNext (view_of seat.new) result }
{
    match L::settle(hand, claimed) {
        Ok(SettledLeg::Run(runner)) => Next::Run {
            number,
            runner,
            behind,
        },
        Ok(SettledLeg::Trap(end)) => {
            let event = LegEvent::End(end);
            enter(rt, hub, bell, seat, hand, number, event, behind)
        },
        Err(_) => {
            halt(rt, hub, seat);
            give_up_behind::<L>(hand, behind);
            Next::Nothing
        },
    }
}

/// The joiner goes on where its joinee has ended and it outlives that. Behind it stands nothing, or
/// that end and the join, which are no entries yet.
pub fn come<L: Legs, W: Wait>(
    rt: &W,
    hub: &TurnHub<L>,
    bell: &Bell,
    seat: &mut HubSeat<L>,
    hand: &mut L::Hand,
    number: u32,
    answer: JoinAnswer<L::AtJoin, L::Claimed, L::Stopped>,
    behind: Behind<L::Runner, L::AtJoin>,
) -> Next<L::Runner, L::AtJoin, L::Claimed, L::Stopped>
    requires own { IsSeatOf hub.now seat.old }
    requires hand { IsHandOf L.begins L.hand_group (view_of seat.old) hand.old }
    requires answer { HasAnswer L.machine L.ends L.claimed L.stopped
        L.claimed_group L.stopped_group (view_of seat.old) number behind answer }
    ensures own { IsSeatOf hub.now seat.new }
    ensures same { IsSameSeat (view_of seat.old) (view_of seat.new) }
    ensures hand { IsHandOf L.begins L.hand_group (view_of seat.new) hand.new }
    ensures next { HasNext L.machine L.ends L.claimed L.stopped
        L.claimed_group L.stopped_group (view_of seat.new) result }
    ensures only { OnlyAnswer (view_of seat.old) number behind answer
        → OnlyNext (view_of seat.new) result }
{
    match answer {
        JoinAnswer::Claimed(claimed) => {
            settle(rt, hub, bell, seat, hand, number, claimed, behind)
        },
        JoinAnswer::Trapped(stopped) => {
            let end = L::retire(hand, stopped);
            let event = LegEvent::End(end);
            enter(rt, hub, bell, seat, hand, number, event, behind)
        },
        JoinAnswer::Dropped(at) => Next::Run {
            number,
            runner: L::dropped(at),
            behind,
        },
        JoinAnswer::Waits => {
            give_up_behind::<L>(hand, behind);
            Next::Nothing
        },
        JoinAnswer::Twice(at) | JoinAnswer::OutOfMemory(at) => {
            L::give_up_joiner(hand, at);
            give_up_behind::<L>(hand, behind);
            Next::Nothing
        },
    }
}
