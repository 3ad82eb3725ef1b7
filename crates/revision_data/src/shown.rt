//! The values of a view, by location.

ghost use Rattle.std.specs.Prelude.{◌≡◌, ◌++◌, IfOk, OnOk};
ghost use Rattle.rev_syntax.specs.View.{program as whole};
ghost use Rattle.typed_programs.specs.Layout.{variables};
ghost use Rattle.revision_calculus.specs.State.{view_at};
ghost use Rattle.revision_calculus.specs.Outcome.{show_all, show_cells};
ghost use Rattle.revision_data.specs.Shows.{shown_of};

use crate::location::{Location, value_at};
use rev_num::{Items, Shown, Value};
use rev_syntax::Decl;
use std::alloc::{AllocError, Global};
use typed_programs::{SharedInfo, Typed};

/// The values that these locations show, each with the name of its variable, and the number of its
/// cell in an array.
pub fn shown_values(
    alloc: Global,
    typed: &Typed,
    locations: &[Location],
) -> Result<Vec<Shown>, AllocError>
    ensures { IfOk result
        (λ v. v.items
        ≡ show_all (variables (whole typed.now.expanded.program)) locations.now) }
{
    let mut shown = Vec::new(alloc);
    let rows = typed.shared.as_slice();
    for i in 0..rows.len() {
        let row = rows[i];
        match &typed.expanded.program.decls[row.decl as usize] {
            Decl::Shared { name, .. } => {
                show(alloc, &mut shown, name.text.as_slice(), row, locations)?;
            }
            Decl::Fun { .. } | Decl::Merge { .. } | Decl::Proc { .. } => unreachable!(),
        }
    }
    Ok(shown)
}

/// Appends the values of the variable of this name, which has this row of the checker's table.
fn show(
    alloc: Global,
    shown: &mut Vec<Shown>,
    name: &[u8],
    row: SharedInfo,
    locations: &[Location],
) -> Result<(), AllocError>
    ensures { OnOk result
        (shown.new.items ≡ shown.old.items ++ shown_of name.now row locations.now) }
{
    if row.array {
        return show_array(alloc, shown, name, row, locations);
    }
    let scalar = shown_at(alloc, name, None, locations, row.base as usize)?;
    shown.push(scalar)?;
    Ok(())
}

/// Appends the values of the cells of an array.
fn show_array(
    alloc: Global,
    shown: &mut Vec<Shown>,
    name: &[u8],
    row: SharedInfo,
    locations: &[Location],
) -> Result<(), AllocError>
    ensures { OnOk result
        (shown.new.items
        ≡ shown.old.items ++ show_cells name.now locations.now row.base 0 row.cells) }
{
    for cell in 0..row.cells {
        let number = row.base as usize + cell as usize;
        let value = shown_at(alloc, name, Some(cell), locations, number)?;
        shown.push(value)?;
    }
    Ok(())
}

/// What is shown of one location.
fn shown_at(
    alloc: Global,
    name: &[u8],
    cell: Option<u32>,
    locations: &[Location],
    number: usize,
) -> Result<Shown, AllocError>
    ensures { IfOk result
        (λ x. x
        ≡ record { name = name.now; cell = cell; value = view_at locations.now number }) }
{
    Ok(Shown {
        name: Items::from_vec(Vec::from_slice(alloc, name)?),
        cell,
        value: copied_at(alloc, locations, number)?,
    })
}

/// A copy of the value of the view at this location, and 0 where there is none.
fn copied_at(alloc: Global, locations: &[Location], number: usize) -> Result<Value, AllocError>
    ensures { IfOk result (λ v. v ≡ view_at locations.now number) }
{
    match value_at(locations, number) {
        Some(value) => Ok(value.copy(alloc)?),
        None => Ok(Value::Int(0)),
    }
}
