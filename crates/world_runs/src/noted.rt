//! What is noted of a revision.

ghost use Rattle.std.specs.Prelude.{◌≡◌, [], OnOk};
ghost use Rattle.world_runs.specs.Changes.{HasAdded};

use leg_run::Meeting;
use std::alloc::{AllocError, Global};
use version_map::EndValue;

/// What is noted of a revision: its forks and joins so far, in their order, and what it left, once
/// it has ended.
#[derive(Drop)]
pub struct Noted {
    pub meetings: Vec<Meeting>,
    pub end: Option<EndValue>,
}

impl Noted {
    /// Of a revision before its first leg.
    pub(crate) fn new(alloc: Global) -> Noted
        ensures { result.meetings.items ≡ [] }
    {
        Noted {
            meetings: Vec::new(alloc),
            end: None,
        }
    }

    /// With one entry more, where there is one.
    pub(crate) fn add(&mut self, meeting: Option<Meeting>) -> Result<(), AllocError>
        ensures { OnOk result (HasAdded meeting self.old self.new) }
    {
        match meeting {
            Some(meeting) => {
                self.meetings.push(meeting)?;
                Ok(())
            },
            None => Ok(()),
        }
    }

    /// With what the revision left, where there is that.
    pub(crate) fn end_with(&mut self, end: Option<EndValue>)
        ensures meetings { self.new.meetings ≡ self.old.meetings }
        ensures end { self.new.end ≡ end }
    {
        self.end = end;
    }
}
