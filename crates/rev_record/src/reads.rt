//! What a revision read, with what was there.

ghost use Rattle.std.specs.Prelude.{◌≡◌, ◌<◌, IfOk, List, Some, length, slice_get};
ghost use Rattle.rev_num.specs.Path.{Path as DefinedPath};
ghost use Rattle.code_world.specs.Endings.{Names};
ghost use Rattle.version_map.specs.Deltas.{at, locations};
ghost use Rattle.code_runs.specs.Births.{path_in};
ghost use Rattle.rev_record.specs.Words.{HasGiven, HasRead, count_of};

use crate::entry::{Given, KeptValue};
use crate::values::kept;
use code_world::Birth;
use rev_code::CodeVar;
use std::alloc::{AllocError, Global};
use version_map::Delta;

/// The locations that were read, with the values of these words.
pub(crate) fn locations_read(
    alloc: Global,
    births: &[Birth],
    variables: &[CodeVar],
    noted: &Delta,
    base: &[u64],
) -> Result<Vec<KeptValue>, AllocError>
    requires names { (paths : List DefinedPath) × Names births.now paths }
    requires many { locations noted.now ≡ length base.now }
    ensures { IfOk result (λ v. (paths : List DefinedPath) → Names births.now paths
        → HasRead (path_in paths) variables.now (at noted.now) base.now (length base.now)
        v.items) }
{
    let mut read = Vec::new(alloc);
    for location in 0..noted.locations() {
        if noted.get(location).is_some() {
            let one = kept(alloc, births, variables, location, base[location as usize])?;
            read.push(one)?;
        }
    }
    Ok(read)
}

/// A position of the input, and the number there.
fn given_at(inputs: &[i64], position: u32) -> Given
    requires { position < length inputs.now }
    ensures position { result.position ≡ position }
    ensures number { slice_get inputs.now position ≡ Some result.number }
{
    Given {
        position,
        number: inputs[position as usize],
    }
}

/// The positions of the input that were read, with the numbers there.
pub(crate) fn inputs_read(
    alloc: Global,
    noted: &Delta,
    inputs: &[i64],
) -> Result<Vec<Given>, AllocError>
    requires { locations noted.now ≡ length inputs.now }
    ensures { IfOk result (λ v. HasGiven (at noted.now) inputs.now (length inputs.now) v.items) }
{
    let mut read = Vec::new(alloc);
    for position in 0..noted.locations() {
        if noted.get(position).is_some() {
            let one = given_at(inputs, position);
            read.push(one)?;
        }
    }
    Ok(read)
}

/// The count of inputs, if it was read.
pub(crate) fn count_read(noted: bool, inputs: &[i64]) -> Option<u64>
    ensures { result ≡ count_of noted inputs.now }
{
    if noted {
        Some(inputs.len() as u64)
    } else {
        None
    }
}
