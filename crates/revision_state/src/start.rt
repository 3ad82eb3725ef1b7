//! The locations at the start of a run.

ghost use Rattle.std.specs.Prelude.{◌≡◌, ◌++◌, IfOk, OnOk, option_copied, option_map};
ghost use Rattle.std.specs.Prelude.{replicate};
ghost use Rattle.rev_syntax.specs.View.{constant, declaration, program as whole};
ghost use Rattle.typed_programs.specs.Layout.{variables};
ghost use Rattle.revision_calculus.specs.Program as program;
ghost use Rattle.revision_calculus.specs.State.{fresh};
ghost use Rattle.revision_calculus.specs.Calculus.{start_values};
ghost use Rattle.revision_state.specs.Tables.{start_of, starts_in};

use crate::tables::declared;
use rev_num::{Value, ValueKind};
use rev_syntax::{Const, Decl};
use revision_data::Location;
use std::alloc::{AllocError, Global};
use typed_programs::{SharedInfo, Typed};

/// The start value of a shared variable without a constant.
fn zero_value(kind: ValueKind) -> Value
    ensures { result ≡ program.zero_value kind }
{
    match kind {
        ValueKind::Int => Value::Int(0),
        ValueKind::Bool => Value::Bool(false),
        ValueKind::Rev => Value::Rev(None),
    }
}

/// The value of a constant. Of handles, `none` alone can be written.
fn constant_value(value: &Value) -> Value
    ensures { result ≡ program.constant_value value.now }
{
    match value {
        Value::Int(n) => Value::Int(*n),
        Value::Bool(b) => Value::Bool(*b),
        Value::Rev(_) => Value::Rev(None),
    }
}

/// The start value of a shared variable of this kind.
fn first_value(kind: ValueKind, first: &Option<Const>) -> Value
    ensures { result ≡ program.first_value kind (option_map constant first.now) }
{
    match first {
        None => zero_value(kind),
        Some(constant) => constant_value(&constant.value),
    }
}

/// The start value of a declared shared variable; the number 0 stands for that of another
/// declaration.
fn start_of(decl: Option<&Decl>) -> Value
    ensures { result ≡ start_of (option_map declaration (option_copied decl.entry)) }
{
    match decl {
        Some(
            Decl::Shared {
                name: _,
                by: _,
                kind_at: _,
                holds,
                size: _,
                first,
            },
        ) => first_value(*holds, first),
        _ => Value::Int(0),
    }
}

/// Appends so many locations with this start value.
fn append_copies(
    alloc: Global,
    locations: &mut Vec<Location>,
    value: &Value,
    count: u32,
) -> Result<(), AllocError>
    ensures { OnOk result
        (locations.new.items ≡ locations.old.items ++ fresh (replicate count value.now)) }
{
    for _i in 0..count {
        locations.push(Location::fresh(value.copy(alloc)?))?;
    }
    Ok(())
}

/// The locations of these rows before the first statement of a run.
fn start_rows(
    alloc: Global,
    typed: &Typed,
    rows: &[SharedInfo],
) -> Result<Vec<Location>, AllocError>
    ensures { IfOk result
        (λ ms. ms.items
        ≡ fresh (starts_in (whole typed.now.expanded.program).declarations rows.now)) }
{
    let mut locations = Vec::new(alloc);
    for info in rows {
        let value = start_of(declared(typed, info.decl));
        append_copies(alloc, &mut locations, &value, info.cells)?;
    }
    Ok(locations)
}

/// The locations of a run before its first statement.
pub fn start_locations(alloc: Global, typed: &Typed) -> Result<Vec<Location>, AllocError>
    ensures { IfOk result
        (λ ms. ms.items ≡ fresh (start_values (variables (whole typed.now.expanded.program)))) }
{
    start_rows(alloc, typed, typed.shared.as_slice())
}
