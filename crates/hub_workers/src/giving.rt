//! What a thread gives up where a halt was entered: the snapshots of revisions that do not go on.
ghost use Rattle.std.specs.Prelude.{◌≡◌};
ghost use Rattle.hub_workers.specs.Legs.{IsEventOf, IsSameHand};
ghost use Rattle.hub_workers.specs.Work.{IsBehindOf};

use crate::legs::{LegEvent, Legs};
use crate::next::Behind;

/// A forker and its child.
pub fn give_up_split<L: Legs>(hand: &mut L::Hand, parent: L::Parent, child: L::Runner)
    requires parent { L.parent_group parent ≡ L.hand_group hand.old }
    requires child { L.machine.runner_group child ≡ L.hand_group hand.old }
    ensures { IsSameHand L.begins L.hand_group hand.old hand.new }
{
    L::give_up_runner(hand, child);
    L::give_up_parent(hand, parent);
}

/// What stands behind a revision.
pub fn give_up_behind<L: Legs>(hand: &mut L::Hand, behind: Behind<L::Runner, L::AtJoin>)
    requires { IsBehindOf L.machine (L.hand_group hand.old) behind }
    ensures { IsSameHand L.begins L.hand_group hand.old hand.new }
{
    match behind {
        Behind::Kept { kept, .. } => L::give_up_runner(hand, kept),
        Behind::Joiner { at, .. } => L::give_up_joiner(hand, at),
        Behind::Nothing | Behind::Owing { .. } => {},
    }
}

/// A revision at its event.
pub fn give_up_event<L: Legs>(hand: &mut L::Hand, event: LegEvent<L::AtFork, L::AtJoin, L::End>)
    requires { IsEventOf L.machine L.fork_group (L.hand_group hand.old) event }
    ensures { IsSameHand L.begins L.hand_group hand.old hand.new }
{
    match event {
        LegEvent::Fork(at) => {
            if let Ok((parent, child)) = L::split(hand, at) {
                give_up_split::<L>(hand, parent, child);
            }
        },
        LegEvent::Join(at) => L::give_up_joiner(hand, at),
        LegEvent::End(_) => {},
    }
}
