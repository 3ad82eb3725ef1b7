//! What a revision leaves whose entry is valid.

ghost use Rattle.std.specs.Prelude.{◌≡◌, ◌≤◌, ◌<◌, ◌^◌, IfOk, List, length};
ghost use Rattle.rev_num.specs.Path.{Path as DefinedPath};
ghost use Rattle.revision_machine.specs.Laws.{IsDistinct};
ghost use Rattle.revision_machine.specs.Numbered.{number_of};
ghost use Rattle.rev_code.specs.Words.{Word};
ghost use Rattle.block_run.specs.Agreement.{IsWord};
ghost use Rattle.code_machine.specs.Local.{CodeRun};
ghost use Rattle.code_machine.specs.Renamed.{renamed_word};
ghost use Rattle.code_memos.specs.Leaf.{Fresh as DefinedFresh, Known, rerooted};
ghost use Rattle.code_memos.specs.Renaming.{renamed_end};
ghost use Rattle.code_world.specs.Endings.{Names};
ghost use Rattle.rev_vm.specs.Meaning.{IsEnd};
ghost use Rattle.rev_record.specs.Begins.{BeginsAt};
ghost use Rattle.rev_record.specs.Standing.{EndFits, StandsFor, value};
ghost use Rattle.rev_record.specs.Words.{AreInside, AreOver, IsOver, finish_of};

use crate::entry::{KeptValue, LeafEnd, LeafEntry};
use code_runs::number_of;
use code_world::{Birth, FreshStart};
use rev_num::{Items, Path, Value, word_of_int};
use std::alloc::{AllocError, Global};
use version_map::{CodeTrap, EndValue, Finish, Written};

/// The number of the revision of this path, and the one behind the last where there is none.
fn number_or_next(births: &[Birth], path: &Path) -> u64
    requires few { length births.now ≤ 2 ^ 32 }
    requires names { (paths : List DefinedPath) × Names births.now paths }
    ensures few { result ≤ 2 ^ 32 }
    ensures number { (paths : List DefinedPath) → Names births.now paths → IsDistinct paths
        → result ≡ number_of paths path.now }
{
    match number_of(births, path) {
        Some(number) => number as u64,
        None => births.len() as u64,
    }
}

/// The word of a value.
fn word_of(births: &[Birth], held: &Value) -> u64
    requires few { length births.now ≤ 2 ^ 32 }
    requires names { (paths : List DefinedPath) × Names births.now paths }
    ensures { (paths : List DefinedPath) → Names births.now paths → IsDistinct paths
        → (w : Word DefinedPath) → held.now ≡ value w
        → IsWord (renamed_word (number_of paths) w) result }
{
    match held {
        Value::Int(number) => word_of_int(*number),
        Value::Bool(holds) => *holds as u64,
        Value::Rev(handle) => match handle {
            None => 0,
            Some(path) => number_or_next(births, path) + 1,
        },
    }
}

/// What was written at a location, as words, with its root in these.
fn write_over(births: &[Birth], base: &[u64], one: &KeptValue) -> Written
    requires few { length births.now ≤ 2 ^ 32 }
    requires names { (paths : List DefinedPath) × Names births.now paths }
    requires inside { one.now.location < length base.now }
    ensures { (paths : List DefinedPath) → Names births.now paths → IsDistinct paths
        → IsOver paths base.now one.now result }
{
    let value = word_of(births, &one.value);
    Written {
        location: one.location,
        value,
        root: base[one.location as usize],
    }
}

/// What was written, one after another.
fn writes_over(
    alloc: Global,
    births: &[Birth],
    base: &[u64],
    written: &[KeptValue],
) -> Result<Vec<Written>, AllocError>
    requires few { length births.now ≤ 2 ^ 32 }
    requires names { (paths : List DefinedPath) × Names births.now paths }
    requires inside { AreInside (length base.now) written.now }
    ensures { IfOk result (λ v. (paths : List DefinedPath) → Names births.now paths
        → IsDistinct paths → AreOver paths base.now written.now v.items) }
{
    let mut all = Vec::with_capacity(alloc, written.len())?;
    for one in written {
        let write = write_over(births, base, one);
        all.push(write)?;
    }
    Ok(all)
}

/// How a revision ended that ended by itself.
fn finish_of(end: LeafEnd) -> Finish
    ensures { result ≡ finish_of end }
{
    match end {
        LeafEnd::Done => Finish::Done,
        LeafEnd::Trapped { cause, line } => Finish::Trapped(CodeTrap {
            cause,
            line,
            origin: None,
        }),
    }
}

/// What the leg of a revision leaves that begins so and whose entry is valid: what the entry has,
/// with the roots of the revision's own snapshot. Want of memory is the one error.
pub fn end_over(
    alloc: Global,
    births: &[Birth],
    start: &FreshStart,
    entry: &LeafEntry,
) -> Result<EndValue, AllocError>
    requires few { length births.now ≤ 2 ^ 32 }
    requires entry { (g : CodeRun) × (t : List DefinedPath) × (f : DefinedFresh DefinedPath)
        × (e : Known) × Names births.now t × BeginsAt g.code t f start.now
        × StandsFor entry.now e × EndFits g.code e.end }
    ensures { IfOk result (λ v. (g : CodeRun) (t : List DefinedPath)
        (f : DefinedFresh DefinedPath) (e : Known)
        → Names births.now t → BeginsAt g.code t f start.now → StandsFor entry.now e
        → EndFits g.code e.end
        → IsEnd g (renamed_end (number_of t) (rerooted f.snapshot e.end)) v) }
{
    let base = start.base.as_slice();
    let written = writes_over(alloc, births, base, entry.written.as_slice())?;
    let text = Vec::from_slice(alloc, entry.text.as_slice())?;
    Ok(EndValue {
        written: Items::from_vec(written),
        text: Items::from_vec(text),
        fuel: entry.rest,
        finish: finish_of(entry.end),
    })
}
