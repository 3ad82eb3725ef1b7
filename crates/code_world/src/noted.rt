//! What is noted of a leg.

ghost use Rattle.std.specs.Prelude.{◌≡◌, None, Some};
ghost use Rattle.leg_run.specs.declared.revision.Meeting.TheVariants as meeting;
ghost use Rattle.code_world.specs.declared.answer.LegAnswer.TheVariants as how;
ghost use Rattle.code_world.specs.Meetings.{join_meeting};

use crate::answer::LegAnswer;
use leg_run::Meeting;

/// How a leg comes out, and the entry that it adds to its revision's list of forks and joins.
#[derive(Clone, Copy)]
pub struct NotedLeg {
    pub answer: LegAnswer,
    /// None where the revision ends without a join, where there is no leg, and in Twice.
    pub meeting: Option<Meeting>,
}

/// What is noted of a leg that came to a join of this revision in this line.
pub(crate) fn noted_join(answer: LegAnswer, on: u32, line: u32) -> NotedLeg
    ensures answer { result.answer ≡ answer }
    ensures meeting { result.meeting ≡ join_meeting answer on line }
{
    let meeting = match answer {
        LegAnswer::Forked { .. }
        | LegAnswer::Joined { .. }
        | LegAnswer::Ended
        | LegAnswer::Trapped => {
            let revision = on as u64;
            Some(Meeting::Joined { revision, line })
        },
        LegAnswer::Waits { .. } | LegAnswer::Twice | LegAnswer::NoSuch | LegAnswer::Over => None,
    };
    NotedLeg { answer, meeting }
}

/// What is noted of a fork of this child in this line.
pub(crate) fn noted_fork(child: u32, line: u32) -> NotedLeg
    ensures answer { result.answer ≡ how.Forked child }
    ensures meeting { result.meeting ≡ Some (meeting.Forked child line) }
{
    let revision = child as u64;
    NotedLeg {
        answer: LegAnswer::Forked { child },
        meeting: Some(Meeting::Forked { revision, line }),
    }
}

/// What is noted of a leg that is neither a fork nor a join.
pub(crate) fn noted_end(answer: LegAnswer) -> NotedLeg
    ensures answer { result.answer ≡ answer }
    ensures meeting { result.meeting ≡ None }
{
    NotedLeg {
        answer,
        meeting: None,
    }
}
