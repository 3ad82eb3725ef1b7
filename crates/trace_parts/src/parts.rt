//! How a revision ended and what it wrote, by the places of the locations.

ghost use Rattle.std.specs.Prelude.{◌≡◌, ◌++◌, [], IfOk, OnOk, option_copied};
ghost use Rattle.audit_rules.specs.Parts as spec;
ghost use Rattle.trace_parts.specs.PartOfRevision.{end_by};

use rev_num::{Bytes, Cause, Items, Trap};
use revision_data::Location;
use std::alloc::{AllocError, Global};
use trace_diagram::{Change, PartEnd};

/// The place of the location of this number, or nothing where there is none.
pub fn place_at(alloc: Global, places: &[Bytes], number: u32) -> Result<Bytes, AllocError>
    ensures { IfOk result (λ p. p ≡ spec.place_at places.now number) }
{
    match places.get(number as usize) {
        Some(place) => Ok(Items::from_vec(Vec::from_slice(alloc, place.as_slice())?)),
        None => Ok(Items::from_vec(Vec::new(alloc))),
    }
}

/// The place of the location whose merge faulted, or nothing for another cause.
pub fn cause_place(alloc: Global, places: &[Bytes], cause: Cause) -> Result<Bytes, AllocError>
    ensures { IfOk result (λ p. p ≡ spec.cause_place places.now cause) }
{
    match cause {
        Cause::Merge { location, fault: _ } => place_at(alloc, places, location),
        _ => Ok(Items::from_vec(Vec::new(alloc))),
    }
}

/// How a revision ended that has this trap, or none.
pub fn end_of(alloc: Global, places: &[Bytes], trap: Option<&Trap>) -> Result<PartEnd, AllocError>
    ensures { IfOk result (λ e. e ≡ end_by places.now (option_copied trap.entry)) }
{
    match trap {
        Some(trap) => Ok(PartEnd::Trapped {
            trap: trap.copy(alloc)?,
            place: cause_place(alloc, places, trap.cause)?,
        }),
        None => Ok(PartEnd::Done),
    }
}

/// Appends the write of a location, if it was written.
fn append_change(
    alloc: Global,
    changes: &mut Vec<Change>,
    place: &Bytes,
    location: &Location,
) -> Result<(), AllocError>
    ensures { OnOk result
        (changes.new.items
        ≡ changes.old.items ++ spec.change_of place.now location.now location.now.written []) }
{
    if let Some(value) = location.written() {
        changes.push(Change {
            place: Items::from_vec(Vec::from_slice(alloc, place.as_slice())?),
            value: value.copy(alloc)?,
            root: location.base().copy(alloc)?,
        })?;
    }
    Ok(())
}

/// The writes of these locations, which have these places.
pub fn changes_of(
    alloc: Global,
    places: &[Bytes],
    locations: &[Location],
) -> Result<Vec<Change>, AllocError>
    ensures { IfOk result (λ v. v.items ≡ spec.changes places.now locations.now) }
{
    let mut changes = Vec::new(alloc);
    for n in 0..places.len().min(locations.len()) {
        append_change(alloc, &mut changes, &places[n], &locations[n])?;
    }
    Ok(changes)
}
