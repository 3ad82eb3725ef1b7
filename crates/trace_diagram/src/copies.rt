//! Equal parts.
ghost use Rattle.std.specs.Prelude.{◌≡◌, IfOk};

use crate::diagram::{Change, Part, PartEnd, TraceEvent};
use rev_num::{Bytes, Items};
use std::alloc::{AllocError, Global};

/// Equal bytes.
fn copy_bytes(alloc: Global, bytes: &[u8]) -> Result<Bytes, AllocError>
    ensures { IfOk result (λ b. b ≡ bytes.now) }
{
    Ok(Items::from_vec(Vec::from_slice(alloc, bytes)?))
}

impl TraceEvent {
    /// An equal fork or join.
    fn copy(&self, alloc: Global) -> Result<TraceEvent, AllocError>
        ensures { IfOk result (λ e. e ≡ self.now) }
    {
        Ok(match self {
            TraceEvent::Forked { child, line } => TraceEvent::Forked {
                child: child.copy(alloc)?,
                line: *line,
            },
            TraceEvent::Joined { on, line } => TraceEvent::Joined {
                on: on.copy(alloc)?,
                line: *line,
            },
        })
    }
}

impl PartEnd {
    /// An equal end.
    fn copy(&self, alloc: Global) -> Result<PartEnd, AllocError>
        ensures { IfOk result (λ e. e ≡ self.now) }
    {
        Ok(match self {
            PartEnd::Done => PartEnd::Done,
            PartEnd::Trapped { trap, place } => PartEnd::Trapped {
                trap: trap.copy(alloc)?,
                place: copy_bytes(alloc, place.as_slice())?,
            },
        })
    }
}

impl Change {
    /// An equal write.
    fn copy(&self, alloc: Global) -> Result<Change, AllocError>
        ensures { IfOk result (λ c. c ≡ self.now) }
    {
        Ok(Change {
            place: copy_bytes(alloc, self.place.as_slice())?,
            value: self.value.copy(alloc)?,
            root: self.root.copy(alloc)?,
        })
    }
}

/// Equal forks and joins.
fn copy_events(alloc: Global, events: &[TraceEvent]) -> Result<Items<TraceEvent>, AllocError>
    ensures { IfOk result (λ es. es ≡ events.now) }
{
    let mut copy = Vec::with_capacity(alloc, events.len())?;
    for event in events {
        copy.push(event.copy(alloc)?)?;
    }
    Ok(Items::from_vec(copy))
}

/// Equal writes.
fn copy_changes(alloc: Global, changes: &[Change]) -> Result<Items<Change>, AllocError>
    ensures { IfOk result (λ cs. cs ≡ changes.now) }
{
    let mut copy = Vec::with_capacity(alloc, changes.len())?;
    for change in changes {
        copy.push(change.copy(alloc)?)?;
    }
    Ok(Items::from_vec(copy))
}

impl Part {
    /// An equal part.
    pub fn copy(&self, alloc: Global) -> Result<Part, AllocError>
        ensures { IfOk result (λ p. p ≡ self.now) }
    {
        Ok(Part {
            path: self.path.copy(alloc)?,
            events: copy_events(alloc, self.events.as_slice())?,
            end: self.end.copy(alloc)?,
            fuel: self.fuel,
            written: copy_changes(alloc, self.written.as_slice())?,
            text: copy_bytes(alloc, self.text.as_slice())?,
        })
    }
}
