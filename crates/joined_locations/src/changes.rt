//! What a join writes, location by location.

ghost use Rattle.std.specs.Prelude.{◌≡◌, ◌<◌, ◌^◌, ℕ, IfOk, Some, length, slice_get};
ghost use Rattle.rev_syntax.specs.View.{program as whole};
ghost use Rattle.revision_calculus.specs.Join as join;
ghost use Rattle.joined_locations.specs.Changes.{change_of, composed, put, put_at};

use crate::merging::merged_value;
use rev_num::{NumFault, Value};
use revision_data::{Location, number_of, write_at};
use std::alloc::{AllocError, Global};
use typed_programs::Typed;

/// The least location whose merge faults, with the fault.
#[derive(Clone, Copy, Drop)]
pub struct FaultedMerge {
    pub location: u32,
    pub fault: NumFault,
}

/// The merge of a location's numbers, of which the joinee wrote one.
fn merged(
    typed: &Typed,
    merge: u32,
    joiner: &Location,
    joinee: &Location,
    written: &Value,
) -> Result<Option<Value>, NumFault>
    requires { merge < length typed.now.expanded.merges }
    ensures { change_of joiner.now result
        ≡ join.overwrite joiner.now
        (join.new_value (whole typed.now.expanded.program) (Some merge) joiner.now joinee.now
        written.now) }
{
    let main = number_of(joiner.view());
    let root = number_of(joinee.base());
    match merged_value(typed, merge, main, number_of(written), root) {
        Ok(number) => Ok(Some(Value::Int(number))),
        Err(fault) => Err(fault),
    }
}

/// What the join writes at a location, with the merge of this number, if it has one.
fn change(
    alloc: Global,
    typed: &Typed,
    merge: Option<u32>,
    joiner: &Location,
    joinee: &Location,
) -> Result<Result<Option<Value>, NumFault>, AllocError>
    requires { (k : ℕ) → merge ≡ Some k → k < length typed.now.expanded.merges }
    ensures { IfOk result
        (λ a. change_of joiner.now a
        ≡ join.join_location (whole typed.now.expanded.program) merge joiner.now joinee.now
        joinee.now.written) }
{
    match joinee.written() {
        None => Ok(Ok(None)),
        Some(written) => match merge {
            None => Ok(Ok(Some(written.copy(alloc)?))),
            Some(merge) => Ok(merged(typed, merge, joiner, joinee, written)),
        },
    }
}

/// What the join writes at each location, or the least location whose merge faults. `merges` has
/// the number of each location's merge, if it has one; they are fewer than 2^32.
pub fn compose(
    alloc: Global,
    typed: &Typed,
    merges: &[Option<u32>],
    joiner: &[Location],
    joinee: &[Location],
) -> Result<Result<Vec<Option<Value>>, FaultedMerge>, AllocError>
    requires known { (k n : ℕ) → slice_get merges.now k ≡ Some (Some n)
        → n < length typed.now.expanded.merges }
    requires few { length merges.now < 2 ^ 32 }
    ensures { IfOk result
        (λ a. composed joiner.now a
        ≡ join.compose (whole typed.now.expanded.program) 0 merges.now joiner.now joinee.now) }
{
    let mut changes = Vec::with_capacity(alloc, joiner.len())?;
    for n in 0..merges.len().min(joiner.len()).min(joinee.len()) {
        match change(alloc, typed, merges[n], &joiner[n], &joinee[n])? {
            Ok(change) => changes.push(change)?,
            Err(fault) => {
                let location = n as u32;
                return Ok(Err(FaultedMerge { location, fault }));
            }
        }
    }
    Ok(Ok(changes))
}

/// Writes what the join writes.
pub fn write_all(locations: &mut [Location], mut changes: Vec<Option<Value>>)
    ensures { locations.new ≡ put locations.old changes.items }
{
    while let Some(change) = changes.pop() {
        write_one(locations, changes.len(), change);
    }
}

fn write_one(locations: &mut [Location], number: usize, change: Option<Value>)
    ensures { locations.new ≡ put_at locations.old number change }
{
    if let Some(value) = change {
        write_at(locations, number, value);
    }
}
