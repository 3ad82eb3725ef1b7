//! What is told of a revision that has ended, and its locations by that.

ghost use Rattle.std.specs.Prelude.{◌≡◌, IfOk};
ghost use Rattle.stated_parts.specs.Ends as spec;

use rev_num::{Trap, Value};
use revision_data::Location;
use std::alloc::{AllocError, Global};

/// A write of a revision: the number of the location, the value, and the value of the snapshot.
#[derive(Drop)]
pub struct AloneWrite {
    pub location: u32,
    pub value: Value,
    pub root: Value,
}

/// What is told of a revision that has ended: its writes in the order of the locations, its text,
/// its fuel, and its trap, or none where it is done.
#[derive(Drop)]
pub struct AloneEnd {
    pub written: Vec<AloneWrite>,
    pub text: Vec<u8>,
    pub fuel: u64,
    pub trap: Option<Trap>,
}

impl AloneWrite {
    /// The location that was written.
    fn told(&self, alloc: Global) -> Result<Location, AllocError>
        ensures { IfOk result (λ m. m ≡ spec.told self.now) }
    {
        let mut location = Location::fresh(self.root.copy(alloc)?);
        location.write(self.value.copy(alloc)?);
        Ok(location)
    }
}

/// The location of this number, by the first of these writes, if there is one.
fn told_at(alloc: Global, number: usize, written: &[AloneWrite]) -> Result<Location, AllocError>
    ensures { IfOk result (λ m. m ≡ spec.told_at number written.now) }
{
    match written.first() {
        Some(first) => {
            if first.location as usize == number {
                return first.told(alloc);
            }
            Ok(Location::fresh(Value::Int(0)))
        }
        None => Ok(Location::fresh(Value::Int(0))),
    }
}

/// The writes behind the location of this number.
fn behind(number: usize, written: &[AloneWrite]) -> &[AloneWrite]
    ensures { result.now ≡ spec.behind number written.now }
{
    match written.split_first() {
        Some((first, others)) => {
            if first.location as usize == number {
                return others;
            }
            written
        }
        None => written,
    }
}

/// So many locations with these writes.
#[tactic(auto, using(crate::proofs::ToldLocations::told_more, crate::proofs::ToldLocations::told_all))]
pub fn told_locations(
    alloc: Global,
    count: usize,
    written: &[AloneWrite],
) -> Result<Vec<Location>, AllocError>
    ensures { IfOk result (λ ms. ms.items ≡ spec.told_from 0 count written.now) }
{
    let mut locations = Vec::with_capacity(alloc, count)?;
    let mut others = written;
    for number in 0..count {
        locations.push(told_at(alloc, number, others)?)?;
        others = behind(number, others);
    }
    Ok(locations)
}
