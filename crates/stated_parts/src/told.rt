//! What a stated part tells of the end of its revision.

ghost use Rattle.std.specs.Prelude.{◌≡◌, ◌+◌, ◌<◌, ◌&&◌, ◌++◌, [], None, IfOk, OnOk, drop, length};
ghost use Rattle.std.specs.Prelude.{option_map};
ghost use Rattle.std.specs.Prelude.{replicate};
ghost use Rattle.rev_num.specs.Value.{kind_of, same_kind};
ghost use Rattle.revision_calculus.specs.Kinded.{LocationsAre, location_kinds};
ghost use Rattle.revision_state.specs.Ends.{phase_of};
ghost use Rattle.revision_state.specs.Views.{given};
ghost use Rattle.audit_rules.specs.Parts as spec;
ghost use Rattle.stated_parts.specs.Told.{AreSlots, Enters, ToldBy, slots_from, with_written};
ghost use Rattle.stated_parts.specs.Told.{write_to};
ghost use Rattle.stated_parts.specs.Told.{written_in};

use crate::ends::{AloneEnd, AloneWrite};
use crate::stated::Stated;
use rev_num::{Cause, Trap, same_kind};
use revision_data::Location;
use std::alloc::{AllocError, Global};
use trace_diagram::{Change, Part, PartEnd};

/// The cause, with the location that the place names, if it is a merge's.
fn told_cause(stated: &Stated, cause: Cause, place: &[u8]) -> Option<Cause>
    ensures { result
        ≡ spec.cause_from cause (spec.number_of
        (spec.places (given stated.now.setting)) place.now) }
{
    match cause {
        Cause::Merge { fault, .. } => match stated.number(place) {
            Some(location) => Some(Cause::Merge { location, fault }),
            None => None,
        },
        _ => Some(cause),
    }
}

/// The trap that ended the revision, or none where it is done, if the place of its merge is known.
fn told_trap(
    alloc: Global,
    stated: &Stated,
    end: &PartEnd,
) -> Result<Option<Option<Trap>>, AllocError>
    ensures { IfOk result (λ t. option_map phase_of t
        ≡ spec.told_phase (spec.places (given stated.now.setting)) end.now) }
{
    match end {
        PartEnd::Done => Ok(Some(None)),
        PartEnd::Trapped { trap, place } => {
            match told_cause(stated, trap.cause, place.as_slice()) {
                Some(cause) => Ok(Some(Some(Trap {
                    cause,
                    line: trap.line,
                    origin: trap.origin.copy(alloc)?,
                }))),
                None => Ok(None),
            }
        }
    }
}

/// Whether both values of a change are of the location's kind.
fn has_kind(change: &Change, location: &Location) -> bool
    ensures { result ≡ same_kind (kind_of change.now.value) (kind_of location.now.base)
        && same_kind (kind_of change.now.root) (kind_of location.now.base) }
{
    let kind = location.base().kind();
    same_kind(change.value.kind(), kind) && same_kind(change.root.kind(), kind)
}

/// No write of any location.
fn no_slots(alloc: Global, count: usize) -> Result<Vec<Option<AloneWrite>>, AllocError>
    ensures { IfOk result (λ v. v.items ≡ replicate count None) }
{
    let mut slots = Vec::with_capacity(alloc, count)?;
    for _n in 0..count {
        slots.push(None)?;
    }
    Ok(slots)
}

/// The change as the write of the location of this number.
fn write_of(alloc: Global, number: u32, change: &Change) -> Result<AloneWrite, AllocError>
    ensures { IfOk result (λ w. w ≡ write_to number change.now) }
{
    Ok(AloneWrite {
        location: number,
        value: change.value.copy(alloc)?,
        root: change.root.copy(alloc)?,
    })
}

/// Puts the change of this number, after those behind it, into the slot of its location, if it has
/// one that is free, and both values are of its kind.
fn enter_change(
    alloc: Global,
    stated: &Stated,
    locations: &[Location],
    slots: &mut Vec<Option<AloneWrite>>,
    changes: &[Change],
    j: usize,
) -> Result<bool, AllocError>
    requires within { j < length changes.now }
    requires kinds { LocationsAre (location_kinds (given stated.now.setting)) locations.now }
    requires slots { slots.old.items
        ≡ slots_from 0 (spec.places (given stated.now.setting)) (drop (j + 1) changes.now) }
    ensures { IfOk result (λ fits. Enters
        (given stated.now.setting) changes.now j slots.new.items fits) }
{
    let change = &changes[j];
    let Some(number) = stated.number(change.place.as_slice()) else {
        return Ok(false);
    };
    let n = number as usize;
    if !has_kind(change, &locations[n]) {
        return Ok(false);
    }
    if slots[n].is_some() {
        return Ok(false);
    }
    slots[n] = Some(write_of(alloc, number, change)?);
    Ok(true)
}

/// The write of each location, if all changes fit: each has a place of its own, and values of its
/// kind.
fn slots_of(
    alloc: Global,
    stated: &Stated,
    locations: &[Location],
    changes: &[Change],
) -> Result<Option<Vec<Option<AloneWrite>>>, AllocError>
    requires { LocationsAre (location_kinds (given stated.now.setting)) locations.now }
    ensures { IfOk result
        (λ slots. AreSlots (given stated.now.setting) changes.now
        (option_map (λ v. v.items) slots)) }
{
    let mut slots = no_slots(alloc, locations.len())?;
    let mut j = changes.len();
    while j > 0 {
        j -= 1;
        if !enter_change(alloc, stated, locations, &mut slots, changes, j)? {
            return Ok(None);
        }
    }
    Ok(Some(slots))
}

/// Appends the write of a slot, if it has one.
fn append_slot(written: &mut Vec<AloneWrite>, slot: Option<AloneWrite>) -> Result<(), AllocError>
    ensures { OnOk result (written.new.items ≡ written.old.items ++ with_written slot []) }
{
    if let Some(write) = slot {
        written.push(write)?;
    }
    Ok(())
}

/// The writes in these slots.
fn written_in(
    alloc: Global,
    mut slots: Vec<Option<AloneWrite>>,
) -> Result<Vec<AloneWrite>, AllocError>
    ensures { IfOk result (λ ws. ws.items ≡ written_in slots.items) }
{
    let mut written = Vec::new(alloc);
    for n in 0..slots.len() {
        append_slot(&mut written, slots[n].take())?;
    }
    Ok(written)
}

/// What the part tells of the end of its revision, if its end and its changes fit a program whose
/// locations are of the same kinds as these.
pub fn told_end(
    alloc: Global,
    stated: &Stated,
    locations: &[Location],
    part: &Part,
) -> Result<Option<AloneEnd>, AllocError>
    requires { LocationsAre (location_kinds (given stated.now.setting)) locations.now }
    ensures { IfOk result (ToldBy (given stated.now.setting) part.now) }
{
    let Some(trap) = told_trap(alloc, stated, &part.end)? else {
        return Ok(None);
    };
    let Some(slots) = slots_of(alloc, stated, locations, part.written.as_slice())? else {
        return Ok(None);
    };
    Ok(Some(AloneEnd {
        written: written_in(alloc, slots)?,
        text: Vec::from_slice(alloc, part.text.as_slice())?,
        fuel: part.fuel,
        trap,
    }))
}
