//! Tables of the stated parts.

ghost use Rattle.std.specs.Prelude.{◌≡◌, ◌<◌, ◌^◌, ◌∷◌, [], ℕ, List, Some, IfOk, OnOk, length};
ghost use Rattle.std.specs.Prelude.{if◌then◌else◌};
ghost use Rattle.rev_num.specs.Path.{Path};
ghost use Rattle.name_tables.specs.Table.{find};
ghost use Rattle.revision_machine.specs.PathIndex.{IsIndexed, place_by};
ghost use Rattle.audit_rules.specs.Parts as spec;
ghost use Rattle.audit_rules.specs.Traces.{paths_of};
ghost use Rattle.stated_parts.specs.Tables.{joiner_from, lists};

use crate::path_table::PathTable;
use name_tables::NameTable;
use rev_num::Bytes;
use std::alloc::{AllocError, Global};
use trace_diagram::{Part, TraceEvent};

/// The number of the part of each revision.
pub(crate) fn indices_of(alloc: Global, parts: &[Part]) -> Result<PathTable, AllocError>
    ensures { IfOk result (λ t. IsIndexed t.map (paths_of parts.now)) }
{
    let mut table = PathTable::new(alloc);
    for i in 0..parts.len() {
        table.enter(alloc, &parts[i].path, i)?;
    }
    Ok(table)
}

/// Enters the revisions that these events list as joined with this number.
fn enter_joins(
    alloc: Global,
    table: &mut PathTable,
    events: &[TraceEvent],
    number: usize,
) -> Result<(), AllocError>
    ensures { OnOk result ((q : Path) → place_by table.new.map q
        ≡ (if lists events.now q then Some number else place_by table.old.map q)) }
{
    for event in events {
        enter_join(alloc, table, event, number)?;
    }
    Ok(())
}

/// Enters the revision that this event lists as joined, if it lists one.
fn enter_join(
    alloc: Global,
    table: &mut PathTable,
    event: &TraceEvent,
    number: usize,
) -> Result<(), AllocError>
    ensures { OnOk result ((q : Path) → place_by table.new.map q
        ≡ (if lists (event.now ∷ []) q then Some number else place_by table.old.map q)) }
{
    match event {
        TraceEvent::Forked { .. } => Ok(()),
        TraceEvent::Joined { on, .. } => table.enter(alloc, on, number),
    }
}

/// The number of the first part that lists a revision as joined.
pub(crate) fn joiners_of(alloc: Global, parts: &[Part]) -> Result<PathTable, AllocError>
    ensures { IfOk result (λ t. (q : Path) → place_by t.map q ≡ joiner_from 0 parts.now q) }
{
    let mut table = PathTable::new(alloc);
    let mut i = parts.len();
    while i > 0 {
        i -= 1;
        enter_joins(alloc, &mut table, parts[i].events.as_slice(), i)?;
    }
    Ok(table)
}

/// The number of the location of each place.
pub(crate) fn numbers_of(alloc: Global, places: &[Bytes]) -> Result<NameTable<u32>, AllocError>
    requires { length places.now < 2 ^ 32 }
    ensures { IfOk result
        (λ t. (place : List ℕ) → find place t ≡ spec.number_of places.now place) }
{
    let mut table = NameTable::new(alloc);
    for n in 0..places.len() {
        table.add(alloc, places[n].as_slice(), n as u32)?;
    }
    Ok(table)
}
