//! The places of a program's locations.

ghost use Rattle.std.specs.Prelude.{◌≡◌, ◌++◌, [], IfOk, OnOk, codes, map};
ghost use Rattle.std.specs.Fmt.{decimal};
ghost use Rattle.rev_syntax.specs.View.{program as whole};
ghost use Rattle.rev_report.specs.Outcome.{place_of};
ghost use Rattle.typed_programs.specs.Layout.{variables};
ghost use Rattle.revision_calculus.specs.Outcome.{show_all};

use itoa::Buffer;
use rev_num::{Bytes, Items};
use revision_data::shown_values;
use std::alloc::{AllocError, Global};
use typed_programs::Typed;

/// Appends the number of a cell in brackets.
fn append_cell(text: &mut Vec<u8>, cell: u32) -> Result<(), AllocError>
    ensures { OnOk result (text.new.items
        ≡ text.old.items ++ (codes "[" ++ (decimal cell ++ codes "]"))) }
{
    let mut buffer = Buffer::new();
    text.push(b'[')?;
    text.extend_from_slice(buffer.format(cell).as_bytes())?;
    text.push(b']')?;
    Ok(())
}

/// The place of a location: the name of its variable, and the number of its cell in an array.
pub fn place_of(alloc: Global, name: &[u8], cell: Option<u32>) -> Result<Bytes, AllocError>
    ensures { IfOk result (λ p. p ≡ place_of name.now cell) }
{
    let mut text = Vec::from_slice(alloc, name)?;
    if let Some(cell) = cell {
        append_cell(&mut text, cell)?;
    }
    Ok(Items::from_vec(text))
}

/// The places of the locations, in their order.
pub fn places_of(alloc: Global, typed: &Typed) -> Result<Vec<Bytes>, AllocError>
    ensures { IfOk result
        (λ v. v.items
        ≡ map (λ x. place_of x.name x.cell)
        (show_all (variables (whole typed.now.expanded.program)) [])) }
{
    let shown = shown_values(alloc, typed, &[])?;
    let mut places = Vec::with_capacity(alloc, shown.len())?;
    for one in &shown {
        places.push(place_of(alloc, one.name.as_slice(), one.cell)?)?;
    }
    Ok(places)
}
