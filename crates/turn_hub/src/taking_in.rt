//! How a joiner takes an end in.
ghost use Rattle.turn_hub.specs.Answers.{TakesIn};

use crate::answers::JoinAnswer;
use hub_core::Revision;

/// The joiner with the end of its joinee.
pub fn take_in<L: Revision>(
    at: L::AtJoin,
    end: L::End,
) -> JoinAnswer<L::AtJoin, L::Claimed, L::Stopped>
    ensures { TakesIn L.machine L.ends L.claimed L.stopped
        L.claimed_group L.stopped_group at end result }
{
    if !L::is_trapped(&end) {
        return JoinAnswer::Claimed(L::claim(at, end));
    }
    if L::is_try(&at) {
        return JoinAnswer::Dropped(at);
    }
    JoinAnswer::Trapped(L::trapped(at, end))
}
