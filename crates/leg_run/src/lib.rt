//! Legs of revisions: what a revision does between two events.
#![tactic(auto)]

ghost use Rattle.leg_run.specs.ByMarks.{AgreesByMarks};
ghost use Rattle.leg_run.specs.Standing.{StandsForItsState};

mod apply_fun;
mod block;
mod calls;
mod joins;
mod legs;
mod prints;
mod revision;
mod setting;
mod turn;

pub use apply_fun::apply;
pub use block_run::{Notes, ReadMarks};
pub use calls::{call, leave};
pub use joins::join;
pub use legs::run;
pub use revision::{LegEnd, Meeting, Run, RunningRevision, Waiting};
pub use setting::CodeSetting;
pub use turn::BlockExit;

/// A revision stands for no state but its own.
pub fn standing_law()
    ensures { StandsForItsState }
{}

/// A snapshot and an input have what was read of others exactly where they agree with these on what
/// is noted.
pub fn valid_law<H>()
    ensures { AgreesByMarks H }
{}
