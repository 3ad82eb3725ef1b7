//! The part of a trace that a revision has, from what was noted of it.

ghost use Rattle.std.specs.Prelude.{◌≡◌, IfOk, List, map, slice_get};
ghost use Rattle.rev_num.specs.Path.{Path as DefinedPath};
ghost use Rattle.code_rules.specs.Shapes.{kind_or_int};
ghost use Rattle.code_world.specs.Endings.{Names};
ghost use Rattle.leg_run.specs.Standing.{listed_as};
ghost use Rattle.rev_vm.specs.States.{entry_as, phase_as};
ghost use Rattle.code_traces.specs.Parts as spec;
ghost use Rattle.code_traces.specs.Parts.{path_in};
ghost use Rattle.code_traces.specs.NotedParts.{noted_part};

use code_runs::{path_of, value_of};
use code_world::Birth;
use leg_run::Meeting;
use rev_num::{Bytes, Items, Path, Trap, ValueKind};
use std::alloc::{AllocError, Global};
use trace_diagram::{Change, Part, PartEnd, TraceEvent};
use trace_parts::{cause_place, place_at};
use version_map::{CodeTrap, EndValue, Finish, Written};

/// An entry of the list of forks and joins, as a trace has it.
fn event_of(alloc: Global, births: &[Birth], meeting: &Meeting) -> Result<TraceEvent, AllocError>
    requires { (paths : List DefinedPath) × Names births.now paths }
    ensures { IfOk result (λ e. (paths : List DefinedPath) → Names births.now paths
        → e ≡ spec.event_of (path_in paths) (listed_as meeting.now)) }
{
    match *meeting {
        Meeting::Forked { revision, line } => {
            let child = path_of(alloc, births, revision as usize)?;
            Ok(TraceEvent::Forked { child, line })
        },
        Meeting::Joined { revision, line } => {
            let on = path_of(alloc, births, revision as usize)?;
            Ok(TraceEvent::Joined { on, line })
        },
    }
}

/// The forks and joins, as a trace has them.
fn events_of(
    alloc: Global,
    births: &[Birth],
    meetings: &[Meeting],
) -> Result<Vec<TraceEvent>, AllocError>
    requires { (paths : List DefinedPath) × Names births.now paths }
    ensures { IfOk result (λ v. (paths : List DefinedPath) → Names births.now paths
        → v.items ≡ map (spec.event_of (path_in paths)) (map listed_as meetings.now)) }
{
    let mut events = Vec::with_capacity(alloc, meetings.len())?;
    for meeting in meetings {
        let event = event_of(alloc, births, meeting)?;
        events.push(event)?;
    }
    Ok(events)
}

/// The path of the revision that trapped first, which is this one where no other did.
fn origin_of(
    alloc: Global,
    births: &[Birth],
    number: usize,
    origin: Option<u32>,
) -> Result<Path, AllocError>
    requires { (paths : List DefinedPath) × Names births.now paths }
    ensures { IfOk result (λ p. (paths : List DefinedPath) → Names births.now paths
        → p ≡ spec.origin_at (path_in paths) (path_in paths number) origin) }
{
    match origin {
        None => path_of(alloc, births, number),
        Some(first) => path_of(alloc, births, first as usize),
    }
}

/// How a revision ended, as a trace has it.
fn end_of(
    alloc: Global,
    places: &[Bytes],
    births: &[Birth],
    number: usize,
    finish: Finish,
) -> Result<PartEnd, AllocError>
    requires { (paths : List DefinedPath) × Names births.now paths }
    ensures { IfOk result (λ e. (paths : List DefinedPath) → Names births.now paths
        → e ≡ spec.end_at (path_in paths) places.now (path_in paths number) (phase_as finish)) }
{
    match finish {
        Finish::Done => Ok(PartEnd::Done),
        Finish::Trapped(
            CodeTrap {
                cause,
                line,
                origin,
            },
        ) => {
            let origin = origin_of(alloc, births, number, origin)?;
            let place = cause_place(alloc, places, cause)?;
            Ok(PartEnd::Trapped {
                trap: Trap {
                    cause,
                    line,
                    origin,
                },
                place,
            })
        },
    }
}

/// The kind of the location of this number. Beyond the last it is that of ints.
fn kind_at(kinds: &[ValueKind], location: u32) -> ValueKind
    ensures { result ≡ kind_or_int (slice_get kinds.now location) }
{
    match kinds.get(location as usize) {
        Some(kind) => *kind,
        None => ValueKind::Int,
    }
}

/// A location that was written, as a trace has it.
fn change_of(
    alloc: Global,
    places: &[Bytes],
    kinds: &[ValueKind],
    births: &[Birth],
    written: &Written,
) -> Result<Change, AllocError>
    requires { (paths : List DefinedPath) × Names births.now paths }
    ensures { IfOk result (λ c. (paths : List DefinedPath) → Names births.now paths
        → c ≡ spec.change_of (path_in paths) places.now (entry_as kinds.now written.now)) }
{
    let kind = kind_at(kinds, written.location);
    let place = place_at(alloc, places, written.location)?;
    let value = value_of(alloc, births, kind, written.value)?;
    let root = value_of(alloc, births, kind, written.root)?;
    Ok(Change { place, value, root })
}

/// The locations that were written, as a trace has them.
fn changes_of(
    alloc: Global,
    places: &[Bytes],
    kinds: &[ValueKind],
    births: &[Birth],
    written: &[Written],
) -> Result<Vec<Change>, AllocError>
    requires { (paths : List DefinedPath) × Names births.now paths }
    ensures { IfOk result (λ v. (paths : List DefinedPath) → Names births.now paths
        → v.items ≡ map (spec.change_of (path_in paths) places.now)
        (map (entry_as kinds.now) written.now)) }
{
    let mut changes = Vec::with_capacity(alloc, written.len())?;
    for one in written {
        let change = change_of(alloc, places, kinds, births, one)?;
        changes.push(change)?;
    }
    Ok(changes)
}

/// The part of the revision of this number, with these places and kinds of the locations, from its
/// forks and joins and from what it left. Its text is moved and not copied.
pub(crate) fn part_of(
    alloc: Global,
    places: &[Bytes],
    kinds: &[ValueKind],
    births: &[Birth],
    number: usize,
    meetings: &[Meeting],
    end: EndValue,
) -> Result<Part, AllocError>
    requires { (paths : List DefinedPath) × Names births.now paths }
    ensures { IfOk result (λ p. (paths : List DefinedPath) → Names births.now paths
        → p ≡ noted_part places.now kinds.now paths number meetings.now end) }
{
    let path = path_of(alloc, births, number)?;
    let events = events_of(alloc, births, meetings)?;
    let EndValue {
        written,
        text,
        fuel,
        finish,
    } = end;
    let changes = changes_of(alloc, places, kinds, births, written.as_slice())?;
    let end = end_of(alloc, places, births, number, finish)?;
    Ok(Part {
        path,
        events: Items::from_vec(events),
        end,
        fuel,
        written: Items::from_vec(changes),
        text,
    })
}
