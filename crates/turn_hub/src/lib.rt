//! A hub on a turn and a tally: one slot, which has what the turns entered and the records of
//! revisions, or is out with the one seat that has the turn, and a word that counts the revisions.
//! A seat that keeps the child of its fork goes on without the turn. It is generic in a machine of
//! revisions by numbers. `hub_core` has what lies in the slot, and the rule that each step keeps.
#![tactic(auto)]

mod answers;
mod behind;
mod calls;
mod closing;
mod coming;
mod drawing;
mod ended_on;
mod ending;
mod firsts;
mod forked;
mod forking;
mod handing;
mod hub;
mod joinee;
mod joinees;
mod joining;
mod keeping;
mod kept;
mod onward;
mod opening;
mod patience;
mod seat;
mod seeker;
mod seeking;
mod taker;
mod taking_in;
mod tried;
mod turning;

pub use answers::{EndStep, JoinAnswer, JoinStep, Onward, Taken};
pub use closing::{HubEnd, HubRun, HubSchedule};
pub use hub::{Signs, TurnHub};
pub use seat::HubSeat;
pub use taking_in::take_in;
