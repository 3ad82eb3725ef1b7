//! Locations: the snapshot's value, and what was written.

ghost use Rattle.std.specs.Prelude.{◌≡◌, IfOk, None, map, option_copied};
ghost use Rattle.revision_calculus.specs.State as state;
ghost use Rattle.revision_data.specs.Reading.{or_zero};

use rev_num::Value;
use std::alloc::{AllocError, Global};
use std::marker::Model;

/// A location: its value in the snapshot, and the value that the revision wrote, if it wrote one.
#[derive(Drop)]
pub struct Location {
    base: Value,
    written: Option<Value>,
}

impl Model for Location {
    ghost use Rattle.revision_calculus.specs.State as state;
    ghost use Rattle.revision_data.specs.LocationCodes.{coded_location};

    ghost Value = { state.Location };

    ghost coded = { coded_location };

    ghost view = { λ m. record { base = m.base; written = m.written } };
}

impl Location {
    /// A location of a snapshot, with no write yet.
    pub fn fresh(base: Value) -> Location
        ensures { result ≡ record { base = base; written = None } }
    {
        Location {
            base,
            written: None,
        }
    }

    /// The value in the snapshot.
    pub fn base(&self) -> &Value
        ensures { result.now ≡ self.now.base }
    {
        &self.base
    }

    /// The value that the revision wrote, if it wrote one.
    pub fn written(&self) -> &Option<Value>
        ensures { result.now ≡ self.now.written }
    {
        &self.written
    }

    /// The value that the revision sees.
    pub fn view(&self) -> &Value
        ensures { result.now ≡ state.view self.now }
    {
        match &self.written {
            Some(value) => value,
            None => &self.base,
        }
    }

    /// Writes a value.
    pub fn write(&mut self, value: Value)
        ensures { self.new ≡ state.with_write self.old.base value }
    {
        self.written = Some(value);
    }

    /// An equal location.
    pub fn copy(&self, alloc: Global) -> Result<Location, AllocError>
        ensures { IfOk result (λ m. m ≡ self.now) }
    {
        let written = match &self.written {
            Some(value) => Some(value.copy(alloc)?),
            None => None,
        };
        Ok(Location {
            base: self.base.copy(alloc)?,
            written,
        })
    }
}

/// What the revision sees at the location of this number, if there is one. Contracts see the number
/// 0 where there is none.
pub fn value_at(locations: &[Location], number: usize) -> Option<&Value>
    ensures { or_zero (option_copied result) ≡ state.view_at locations.now number }
{
    match locations.get(number) {
        Some(location) => Some(location.view()),
        None => None,
    }
}

/// The value enters the writes at the location of this number, if there is one.
pub fn write_at(locations: &mut [Location], number: usize, value: Value)
    ensures { locations.new ≡ state.write_at locations.old number value }
{
    if number < locations.len() {
        locations[number].write(value);
    }
}

/// What a child begins with: the values that the forker sees, with no write yet.
pub fn snapshot(alloc: Global, locations: &[Location]) -> Result<Vec<Location>, AllocError>
    ensures { IfOk result (λ c. c.items ≡ state.fresh (map state.view locations.now)) }
{
    let mut child = Vec::with_capacity(alloc, locations.len())?;
    for location in locations {
        child.push(Location::fresh(location.view().copy(alloc)?))?;
    }
    Ok(child)
}

/// Equal locations.
pub fn copy_locations(alloc: Global, locations: &[Location]) -> Result<Vec<Location>, AllocError>
    ensures { IfOk result (λ c. c.items ≡ locations.now) }
{
    let mut copy = Vec::with_capacity(alloc, locations.len())?;
    for location in locations {
        copy.push(location.copy(alloc)?)?;
    }
    Ok(copy)
}
