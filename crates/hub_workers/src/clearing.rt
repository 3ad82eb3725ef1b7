//! An event of a revision, and before it what stands behind the revision.
ghost use Rattle.std.specs.Prelude.{◌≡◌, true, false};
ghost use Rattle.turn_hub.specs.Names.{IsSeatOf, view_of};
ghost use Rattle.hub_core.specs.Seats.{HasState, IsSameSeat};
ghost use Rattle.hub_workers.specs.Legs.{ComesTo, IsEventOf};
ghost use Rattle.hub_workers.specs.Work.{IsHandOf, HasBehind, HasNext};
ghost use Rattle.hub_workers.specs.Handed.{HasHandedIn, IsAlone, OnlyBehind, OnlyNext};

use crate::bell::Bell;
use crate::entering::{fork, hand_in, join};
use crate::giving::give_up_event;
use crate::legs::{LegEvent, Legs};
use crate::next::{Behind, Next};
use std::sync::Wait;
use turn_hub::{HubSeat, TurnHub};

// Enters what a revision owes, and hands in a child or a joiner that stands behind it. `false`: a
// halt was entered, and they are given up.
fn clear<L: Legs, W: Wait>(
    rt: &W,
    hub: &TurnHub<L>,
    bell: &Bell,
    seat: &mut HubSeat<L>,
    hand: &mut L::Hand,
    number: u32,
    behind: Behind<L::Runner, L::AtJoin>,
) -> bool
    requires own { IsSeatOf hub.now seat.old }
    requires hand { IsHandOf L.begins L.hand_group (view_of seat.old) hand.old }
    requires state { (l : L.State)
        × HasBehind L.machine L.ends (view_of seat.old) number l behind }
    ensures own { IsSeatOf hub.now seat.new }
    ensures same { IsSameSeat (view_of seat.old) (view_of seat.new) }
    ensures hand { IsHandOf L.begins L.hand_group (view_of seat.new) hand.new }
    ensures state { result ≡ true → (l : L.State)
        → HasBehind L.machine L.ends (view_of seat.old) number l behind
        → HasState L.machine L.ends (view_of seat.new) number l }
    ensures only { result ≡ true → OnlyBehind (view_of seat.old) number behind
        → IsAlone (view_of seat.new) number }
    ensures halted { result ≡ false → HasHandedIn (view_of seat.new) }
{
    match behind {
        Behind::Nothing => true,
        Behind::Owing { joinee } => hub.settle(rt, seat, joinee, number),
        Behind::Kept { child, kept } => match hub.give_back(rt, seat, child, kept) {
            Ok(()) => {
                bell.ring();
                true
            },
            Err(kept) => {
                L::give_up_runner(hand, kept);
                false
            },
        },
        Behind::Joiner { joiner, at } => match hub.leave(rt, seat, joiner, at) {
            Ok(()) => true,
            Err(at) => {
                L::give_up_joiner(hand, at);
                false
            },
        },
    }
}

/// What stands behind a revision is entered or handed in, and then its event.
pub fn enter<L: Legs, W: Wait>(
    rt: &W,
    hub: &TurnHub<L>,
    bell: &Bell,
    seat: &mut HubSeat<L>,
    hand: &mut L::Hand,
    number: u32,
    event: LegEvent<L::AtFork, L::AtJoin, L::End>,
    behind: Behind<L::Runner, L::AtJoin>,
) -> Next<L::Runner, L::AtJoin, L::Claimed, L::Stopped>
    requires own { IsSeatOf hub.now seat.old }
    requires hand { IsHandOf L.begins L.hand_group (view_of seat.old) hand.old }
    requires comes { (l : L.State) × HasBehind L.machine L.ends (view_of seat.old) number l behind
        × ComesTo L.machine L.ends L.by_join L.forker L.child l event }
    requires group { IsEventOf L.machine L.fork_group (view_of seat.old).group event }
    ensures own { IsSeatOf hub.now seat.new }
    ensures same { IsSameSeat (view_of seat.old) (view_of seat.new) }
    ensures hand { IsHandOf L.begins L.hand_group (view_of seat.new) hand.new }
    ensures next { HasNext L.machine L.ends L.claimed L.stopped
        L.claimed_group L.stopped_group (view_of seat.new) result }
    ensures only { OnlyBehind (view_of seat.old) number behind
        → OnlyNext (view_of seat.new) result }
{
    if !clear(rt, hub, bell, seat, hand, number, behind) {
        give_up_event::<L>(hand, event);
        return Next::Nothing;
    }
    match event {
        LegEvent::Fork(at) => fork(rt, hub, bell, seat, hand, number, at, Behind::Nothing),
        LegEvent::Join(at) => join(rt, hub, bell, seat, number, at),
        LegEvent::End(end) => hand_in(rt, hub, bell, seat, number, end),
    }
}
