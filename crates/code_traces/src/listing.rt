//! The trace of a world, from the notes of its revisions.

ghost use Rattle.std.specs.Prelude.{◌≡◌, ℕ, IfOk, List, Some};
ghost use Rattle.std.specs.List.Sorted.{IsPermutation};
ghost use Rattle.rev_num.specs.Path.{Path as DefinedPath};
ghost use Rattle.code_machine.specs.Local.{Local};
ghost use Rattle.version_map.specs.declared.end.EndValue.{EndValue};
ghost use Rattle.code_world.specs.Endings.{Names};
ghost use Rattle.rev_vm.specs.Starts.{run_under};
ghost use Rattle.revision_machine.specs.Laws.{IsDistinct};
ghost use Rattle.revision_machine.specs.Numbered.{Entries, paths_of};
ghost use Rattle.world_runs.specs.Notes.{AreNoted};
ghost use Rattle.code_traces.specs.Traces.{IsListing};
ghost use Rattle.code_traces.specs.NotedParts.{AreOver, HaveEnded, noted_part, world_parts};

use crate::parts::part_of;
use crate::tables::{kinds_of, places_of};
use code_world::Birth;
use leg_run::CodeSetting;
use rev_num::{Bytes, Items, ValueKind};
use std::alloc::{AllocError, Global};
use trace_diagram::{Part, Trace};
use trace_parts::put_in_order;
use world_runs::Noted;

/// The part of the revision of this number, which has ended.
fn part_noted(
    alloc: Global,
    places: &[Bytes],
    kinds: &[ValueKind],
    births: &[Birth],
    number: usize,
    noted: Noted,
) -> Result<Part, AllocError>
    requires names { (paths : List DefinedPath) × Names births.now paths }
    requires ended { (v : EndValue) × (noted.end ≡ Some v) }
    ensures { IfOk result (λ p. (paths : List DefinedPath) (v : EndValue) → Names births.now paths
        → noted.end ≡ Some v
        → p ≡ noted_part places.now kinds.now paths number noted.meetings.items v) }
{
    let Noted { meetings, end } = noted;
    match end {
        Some(end) => {
            let list = meetings.as_slice();
            let part = part_of(alloc, places, kinds, births, number, list, end)?;
            Ok(part)
        },
        None => unreachable!(),
    }
}

/// The parts of all revisions, in any order.
fn parts_of(
    alloc: Global,
    setting: &CodeSetting,
    births: &[Birth],
    notes: Vec<Noted>,
) -> Result<Vec<Part>, AllocError>
    requires names { (paths : List DefinedPath) × Names births.now paths }
    requires ended { HaveEnded notes.items }
    ensures { IfOk result (λ v. (w : Entries (Local ℕ)) → Names births.now (paths_of w)
        → AreNoted (run_under setting.now) w notes.items → AreOver w
        → IsPermutation (world_parts (run_under setting.now) w) v.items) }
{
    let places = places_of(alloc, setting.code().vars.as_slice())?;
    let kinds = kinds_of(alloc, setting.code().vars.as_slice())?;
    let mut parts = Vec::with_capacity(alloc, notes.len())?;
    let mut rest = notes;
    while let Some(noted) = rest.pop() {
        let number = rest.len();
        let part = part_noted(alloc, &places, &kinds, births, number, noted)?;
        parts.push(part)?;
    }
    Ok(parts)
}

/// The trace of a world, whose revisions have ended, from the notes of them and from where each
/// comes from. Want of memory is the one error.
pub fn trace_of(
    alloc: Global,
    setting: &CodeSetting,
    births: &[Birth],
    notes: Vec<Noted>,
) -> Result<Trace, AllocError>
    requires names { (paths : List DefinedPath) × Names births.now paths }
    requires ended { HaveEnded notes.items }
    ensures { IfOk result (λ t. (w : Entries (Local ℕ)) → Names births.now (paths_of w)
        → AreNoted (run_under setting.now) w notes.items → AreOver w → IsDistinct (paths_of w)
        → IsListing (run_under setting.now) w t.parts) }
{
    let mut parts = parts_of(alloc, setting, births, notes)?;
    put_in_order(&mut parts);
    Ok(Trace {
        parts: Items::from_vec(parts),
    })
}
