//! The places and the kinds of the locations of a code.

ghost use Rattle.std.specs.Prelude.{◌≡◌, ◌++◌, IfOk, OnOk, None, Some, replicate};
ghost use Rattle.code_soundness.specs.Typed.{location_kinds};
ghost use Rattle.code_traces.specs.Parts.{cell_places, places, variable_places};

use rev_code::CodeVar;
use rev_num::{Bytes, ValueKind};
use std::alloc::{AllocError, Global};
use trace_parts::place_of;

/// Appends the places of the cells of an array.
fn append_cells(
    alloc: Global,
    list: &mut Vec<Bytes>,
    name: &[u8],
    cells: u32,
) -> Result<(), AllocError>
    ensures { OnOk result (list.new.items ≡ list.old.items ++ cell_places name.now 0 cells) }
{
    for cell in 0..cells {
        let place = place_of(alloc, name, Some(cell))?;
        list.push(place)?;
    }
    Ok(())
}

/// Appends the places of a variable.
fn append_places(alloc: Global, list: &mut Vec<Bytes>, variable: &CodeVar) -> Result<(), AllocError>
    ensures { OnOk result (list.new.items ≡ list.old.items ++ variable_places variable.now) }
{
    let name = variable.name.as_slice();
    if variable.array {
        append_cells(alloc, list, name, variable.cells)?;
        Ok(())
    } else {
        let place = place_of(alloc, name, None)?;
        list.push(place)?;
        Ok(())
    }
}

/// The places of all locations, in their order.
pub(crate) fn places_of(alloc: Global, variables: &[CodeVar]) -> Result<Vec<Bytes>, AllocError>
    ensures { IfOk result (λ v. v.items ≡ places variables.now) }
{
    let mut list = Vec::new(alloc);
    for at in 0..variables.len() {
        append_places(alloc, &mut list, &variables[at])?;
    }
    Ok(list)
}

/// Appends the kind of a variable, once for each of its cells.
fn append_kinds(list: &mut Vec<ValueKind>, variable: &CodeVar) -> Result<(), AllocError>
    ensures { OnOk result (list.new.items
        ≡ list.old.items ++ replicate variable.now.cells variable.now.kind) }
{
    for done in 0..variable.cells {
        list.push(variable.kind)?;
    }
    Ok(())
}

/// The kinds of all locations, in their order.
pub(crate) fn kinds_of(alloc: Global, variables: &[CodeVar]) -> Result<Vec<ValueKind>, AllocError>
    ensures { IfOk result (λ v. v.items ≡ location_kinds variables.now) }
{
    let mut list = Vec::new(alloc);
    for at in 0..variables.len() {
        append_kinds(&mut list, &variables[at])?;
    }
    Ok(list)
}
