//! The events of revisions, as a thread enters them in its turns.
ghost use Rattle.std.specs.Prelude.{◌≡◌, MatchBool};
ghost use Rattle.revision_machine.specs.Numbered.{Bears};
ghost use Rattle.turn_hub.specs.Names.{IsSeatOf, view_of};
ghost use Rattle.hub_core.specs.Seats.{HasJoin, HasEnd, HasTrap, IsSameSeat, Owes};
ghost use Rattle.hub_workers.specs.Work.{IsHandOf, HasBehind, HasNext, MayFork};
ghost use Rattle.hub_workers.specs.Handed.{HasHandedIn, IsAlone, IsPair, OnlyBehind, OnlyNext};

use crate::bell::Bell;
use crate::giving::{give_up_behind, give_up_split};
use crate::legs::Legs;
use crate::next::{Behind, Next, after_end, after_joiner};
use crate::scout::pass_on;
use std::sync::Wait;
use turn_hub::{HubSeat, JoinStep, TurnHub};

/// Enters want of memory.
pub fn halt<L: Legs, W: Wait>(rt: &W, hub: &TurnHub<L>, seat: &mut HubSeat<L>)
    requires { IsSeatOf hub.now seat.old }
    ensures own { IsSeatOf hub.now seat.new }
    ensures same { IsSameSeat (view_of seat.old) (view_of seat.new) }
    ensures only { HasHandedIn (view_of seat.new) }
{
    hub.halt(rt, seat);
}

/// Hands in an end, and takes what is ready: first what waited for that end, which has joined.
pub fn hand_in<L: Legs, W: Wait>(
    rt: &W,
    hub: &TurnHub<L>,
    bell: &Bell,
    seat: &mut HubSeat<L>,
    number: u32,
    end: L::End,
) -> Next<L::Runner, L::AtJoin, L::Claimed, L::Stopped>
    requires own { IsSeatOf hub.now seat.old }
    requires event { MatchBool (L.by_join end)
        (HasTrap L.machine L.ends (view_of seat.old) number end)
        (HasEnd L.machine L.ends (view_of seat.old) number end) }
    ensures own { IsSeatOf hub.now seat.new }
    ensures same { IsSameSeat (view_of seat.old) (view_of seat.new) }
    ensures next { HasNext L.machine L.ends L.claimed L.stopped
        L.claimed_group L.stopped_group (view_of seat.new) result }
    ensures only { IsAlone (view_of seat.old) number → OnlyNext (view_of seat.new) result }
{
    match hub.end_and_take(rt, seat, number, end) {
        Ok(step) => {
            pass_on(hub, bell);
            after_end(step)
        },
        Err(_) => Next::Nothing,
    }
}

/// A joiner joins. Where its joinee has not ended, the thread takes what is ready: first its
/// joinee, where that was forked last, and then the joiner stays with it.
pub fn join<L: Legs, W: Wait>(
    rt: &W,
    hub: &TurnHub<L>,
    bell: &Bell,
    seat: &mut HubSeat<L>,
    number: u32,
    at: L::AtJoin,
) -> Next<L::Runner, L::AtJoin, L::Claimed, L::Stopped>
    requires own { IsSeatOf hub.now seat.old }
    requires event { HasJoin L.machine L.ends (view_of seat.old) number at }
    requires group { L.machine.joiner_group at ≡ (view_of seat.old).group }
    ensures own { IsSeatOf hub.now seat.new }
    ensures same { IsSameSeat (view_of seat.old) (view_of seat.new) }
    ensures next { HasNext L.machine L.ends L.claimed L.stopped
        L.claimed_group L.stopped_group (view_of seat.new) result }
    ensures only { IsAlone (view_of seat.old) number → OnlyNext (view_of seat.new) result }
{
    match hub.join_or_take(rt, seat, number, at) {
        JoinStep::Waits(onward) => {
            pass_on(hub, bell);
            after_joiner(onward)
        },
        JoinStep::Came(answer) => Next::Came { number, answer },
        JoinStep::Joinee {
            number: joinee,
            runner,
            at,
        } => {
            pass_on(hub, bell);
            Next::Run {
                number: joinee,
                runner,
                behind: Behind::Joiner { joiner: number, at },
            }
        },
    }
}

/// A forker goes on with its child's number, where there is memory and nothing was halted. A joiner
/// behind it stays.
pub fn fork<L: Legs, W: Wait>(
    rt: &W,
    hub: &TurnHub<L>,
    bell: &Bell,
    seat: &mut HubSeat<L>,
    hand: &mut L::Hand,
    number: u32,
    at: L::AtFork,
    behind: Behind<L::Runner, L::AtJoin>,
) -> Next<L::Runner, L::AtJoin, L::Claimed, L::Stopped>
    requires own { IsSeatOf hub.now seat.old }
    requires hand { IsHandOf L.begins L.hand_group (view_of seat.old) hand.old }
    requires forks { (l : L.State) × HasBehind L.machine L.ends (view_of seat.old) number l behind
        × (L.machine.next l ≡ Bears (L.forker at) (L.child at)) }
    requires group { L.fork_group at ≡ (view_of seat.old).group }
    requires may { MayFork behind }
    ensures own { IsSeatOf hub.now seat.new }
    ensures same { IsSameSeat (view_of seat.old) (view_of seat.new) }
    ensures hand { IsHandOf L.begins L.hand_group (view_of seat.new) hand.new }
    ensures next { HasNext L.machine L.ends L.claimed L.stopped
        L.claimed_group L.stopped_group (view_of seat.new) result }
    ensures only { OnlyBehind (view_of seat.old) number behind
        → OnlyNext (view_of seat.new) result }
{
    let Ok((parent, child)) = L::split(hand, at) else {
        halt(rt, hub, seat);
        give_up_behind::<L>(hand, behind);
        return Next::Nothing;
    };
    match hub.fork(rt, seat, number, child) {
        Ok(child) => {
            bell.ring();
            let runner = L::told(parent, child);
            Next::Run {
                number,
                runner,
                behind,
            }
        },
        Err(child) => {
            give_up_split::<L>(hand, parent, child);
            give_up_behind::<L>(hand, behind);
            Next::Nothing
        },
    }
}

/// The fork of a joiner that owes the end of its joinee and its join: all three are entered at one
/// moment. Such a joiner has run its last child by itself, and is expected to do so with this one, so
/// the thread keeps the child, unless a thread that has been idle for a while asks for one.
pub fn fork_owing<L: Legs, W: Wait>(
    rt: &W,
    hub: &TurnHub<L>,
    bell: &Bell,
    seat: &mut HubSeat<L>,
    hand: &mut L::Hand,
    number: u32,
    at: L::AtFork,
    joinee: u32,
) -> Next<L::Runner, L::AtJoin, L::Claimed, L::Stopped>
    requires own { IsSeatOf hub.now seat.old }
    requires hand { IsHandOf L.begins L.hand_group (view_of seat.old) hand.old }
    requires event { (l : L.State) × Owes L.machine L.ends (view_of seat.old) joinee number l
        × (L.machine.next l ≡ Bears (L.forker at) (L.child at)) }
    requires group { L.fork_group at ≡ (view_of seat.old).group }
    ensures own { IsSeatOf hub.now seat.new }
    ensures same { IsSameSeat (view_of seat.old) (view_of seat.new) }
    ensures hand { IsHandOf L.begins L.hand_group (view_of seat.new) hand.new }
    ensures next { HasNext L.machine L.ends L.claimed L.stopped
        L.claimed_group L.stopped_group (view_of seat.new) result }
    ensures only { IsPair (view_of seat.old) joinee number → OnlyNext (view_of seat.new) result }
{
    let shares = bell.is_asked();
    let Ok((parent, child)) = L::split(hand, at) else {
        halt(rt, hub, seat);
        return Next::Nothing;
    };
    if shares {
        return match hub.fork_behind(rt, seat, joinee, number, child) {
            Ok(child) => {
                bell.ring();
                let runner = L::told(parent, child);
                Next::Run {
                    number,
                    runner,
                    behind: Behind::Nothing,
                }
            },
            Err(child) => {
                give_up_split::<L>(hand, parent, child);
                Next::Nothing
            },
        };
    }
    match hub.fork_and_keep(rt, seat, joinee, number, child) {
        Ok((child, kept)) => {
            let runner = L::told(parent, child);
            Next::Run {
                number,
                runner,
                behind: Behind::Kept { child, kept },
            }
        },
        Err(child) => {
            give_up_split::<L>(hand, parent, child);
            Next::Nothing
        },
    }
}
