//! The part of a trace that a revision has, by its local state.

ghost use Rattle.std.specs.Prelude.{◌≡◌, IfOk, map};
ghost use Rattle.revision_state.specs.Phases as phases;
ghost use Rattle.audit_rules.specs.Parts as spec;
ghost use Rattle.trace_parts.specs.PartOfRevision.{part_by};

use rev_num::{Bytes, Items, Path};
use revision_state::ForkOrJoin;
use revision_steps::Local;
use std::alloc::{AllocError, Global};
use trace_diagram::{Part, TraceEvent};
use trace_parts::{changes_of, end_of};

/// An entry of the list of forks and joins, as a trace has it.
fn event_of(alloc: Global, noted: &ForkOrJoin) -> Result<TraceEvent, AllocError>
    ensures { IfOk result (λ e. e ≡ spec.event_of (phases.noted noted.now)) }
{
    Ok(match noted {
        ForkOrJoin::Forked { path, line } => TraceEvent::Forked {
            child: path.copy(alloc)?,
            line: *line,
        },
        ForkOrJoin::Joined { path, line } => TraceEvent::Joined {
            on: path.copy(alloc)?,
            line: *line,
        },
    })
}

/// The forks and joins, as a trace has them.
fn events_of(alloc: Global, list: &[ForkOrJoin]) -> Result<Vec<TraceEvent>, AllocError>
    ensures { IfOk result
        (λ v. v.items ≡ map spec.event_of (map phases.noted list.now)) }
{
    let mut events = Vec::with_capacity(alloc, list.len())?;
    for noted in list {
        events.push(event_of(alloc, noted)?)?;
    }
    Ok(events)
}

/// The part of the revision at this path, whose locations have these places. Its path is moved and
/// not copied.
pub fn part_of(
    alloc: Global,
    places: &[Bytes],
    path: Path,
    local: &Local<'_>,
) -> Result<Part, AllocError>
    ensures { IfOk result (λ p. p ≡ part_by places.now path local.now) }
{
    let events = Items::from_vec(events_of(alloc, local.noted())?);
    let end = end_of(alloc, places, local.trap())?;
    let fuel = local.fuel();
    let written = Items::from_vec(changes_of(alloc, places, local.locations())?);
    let text = Items::from_vec(local.text(alloc)?);
    Ok(Part {
        path,
        events,
        end,
        fuel,
        written,
        text,
    })
}
