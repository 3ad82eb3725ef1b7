//! Whether an entry is valid for a revision that begins so.

ghost use Rattle.std.specs.Prelude.{◌≡◌, ◌↔◌, IfOk, List, Some, slice_get, true};
ghost use Rattle.rev_num.specs.Path.{Path as DefinedPath};
ghost use Rattle.code_memos.specs.Leaf.{Fresh as DefinedFresh, IsValid, Known};
ghost use Rattle.code_world.specs.Endings.{Names};
ghost use Rattle.code_runs.specs.Births.{path_in};
ghost use Rattle.rev_record.specs.Begins.{BeginsAt};
ghost use Rattle.rev_record.specs.Standing.{StandsFor};
ghost use Rattle.rev_record.specs.Words.{AreGiven, AreHere, IsCount, IsHere, IsSameStart};
ghost use Rattle.rev_record.specs.Words.{args_of};

use crate::entry::{Given, KeptValue, LeafEntry};
use crate::kinds::kind_of;
use crate::values::{are_values, args_values, is_value};
use code_runs::value_of;
use code_world::{Birth, FreshStart};
use leg_run::CodeSetting;
use rev_code::CodeVar;
use rev_num::Path;
use std::alloc::{AllocError, Global};

/// Whether the input has this number at its position.
fn is_given(inputs: &[i64], one: &Given) -> bool
    ensures { result ≡ true ↔ slice_get inputs.now one.now.position ≡ Some one.now.number }
{
    match inputs.get(one.position as usize) {
        None => false,
        Some(number) => *number == one.number,
    }
}

/// Whether the input has the numbers that were read of it.
fn has_given(inputs: &[i64], read: &[Given]) -> bool
    ensures { result ≡ true ↔ AreGiven inputs.now read.now }
{
    for one in read {
        let is_so = is_given(inputs, one);
        if !is_so {
            return false;
        }
    }
    true
}

/// Whether there are as many inputs, if that was read.
fn has_count(inputs: &[i64], read: Option<u64>) -> bool
    ensures { result ≡ true ↔ IsCount inputs.now read }
{
    match read {
        None => true,
        Some(count) => count == inputs.len() as u64,
    }
}

/// Whether the input has what was read of it.
fn has_inputs(setting: &CodeSetting, entry: &LeafEntry) -> bool
    ensures { result ≡ true ↔ AreGiven setting.now.inputs.items entry.now.inputs
        × IsCount setting.now.inputs.items entry.now.count }
{
    let inputs = setting.inputs();
    has_given(inputs, entry.inputs.as_slice()) && has_count(inputs, entry.count)
}

/// Whether these words have this value at its location.
fn is_here(
    alloc: Global,
    births: &[Birth],
    variables: &[CodeVar],
    base: &[u64],
    one: &KeptValue,
) -> Result<bool, AllocError>
    requires { (paths : List DefinedPath) × Names births.now paths }
    ensures { IfOk result (λ b. (paths : List DefinedPath) → Names births.now paths
        → b ≡ true ↔ IsHere (path_in paths) variables.now base.now one.now) }
{
    match base.get(one.location as usize) {
        None => Ok(false),
        Some(word) => {
            let value = value_of(alloc, births, kind_of(variables, one.location), *word)?;
            Ok(is_value(&value, &one.value))
        },
    }
}

/// Whether these words have what was read of a snapshot.
fn has_kept(
    alloc: Global,
    births: &[Birth],
    variables: &[CodeVar],
    base: &[u64],
    read: &[KeptValue],
) -> Result<bool, AllocError>
    requires { (paths : List DefinedPath) × Names births.now paths }
    ensures { IfOk result (λ b. (paths : List DefinedPath) → Names births.now paths
        → b ≡ true ↔ AreHere (path_in paths) variables.now base.now read.now) }
{
    for one in read {
        let is_so = is_here(alloc, births, variables, base, one)?;
        if !is_so {
            return Ok(false);
        }
    }
    Ok(true)
}

/// Whether a revision begins in a snapshot that has what was read of the entry's.
fn has_reads(
    alloc: Global,
    setting: &CodeSetting,
    births: &[Birth],
    start: &FreshStart,
    entry: &LeafEntry,
) -> Result<bool, AllocError>
    requires { (paths : List DefinedPath) × Names births.now paths }
    ensures { IfOk result (λ b. (paths : List DefinedPath) → Names births.now paths
        → b ≡ true ↔ AreHere (path_in paths) setting.now.code.vars start.now.base.items
        entry.now.locations) }
{
    let variables = setting.code().vars.as_slice();
    let read = entry.locations.as_slice();
    let kept = has_kept(alloc, births, variables, start.base.as_slice(), read)?;
    Ok(kept)
}

/// Whether a revision begins with the arguments of the entry.
fn has_args(
    alloc: Global,
    setting: &CodeSetting,
    births: &[Birth],
    start: &FreshStart,
    entry: &LeafEntry,
) -> Result<bool, AllocError>
    requires names { (paths : List DefinedPath) × Names births.now paths }
    requires begins { (t : List DefinedPath) × (f : DefinedFresh DefinedPath)
        × BeginsAt setting.now.code t f start.now }
    ensures { IfOk result (λ b. (paths : List DefinedPath) (f : DefinedFresh DefinedPath)
        → Names births.now paths → (x : BeginsAt setting.now.code paths f start.now)
        → b ≡ true ↔ entry.now.args
        ≡ args_of (path_in paths) x.body.locals start.now.args.items) }
{
    let kinds = setting.block(start.block).locals.as_slice();
    let own = args_values(alloc, births, kinds, start.args.as_slice())?;
    let same = are_values(entry.args.as_slice(), own.as_slice());
    Ok(same)
}

/// Whether it is of the revision of this path, which begins with the same block and fuel.
fn starts_alike(path: &Path, start: &FreshStart, entry: &LeafEntry) -> bool
    ensures { result ≡ true ↔ IsSameStart path.now start.now entry.now }
{
    entry.path.is(path) && entry.block == start.block && entry.fuel == start.fuel
}

/// Whether an entry is valid for the revision of this path, which begins so. Want of memory is the
/// one error.
pub fn is_valid(
    alloc: Global,
    setting: &CodeSetting,
    births: &[Birth],
    path: &Path,
    start: &FreshStart,
    entry: &LeafEntry,
) -> Result<bool, AllocError>
    requires names { (t : List DefinedPath) × Names births.now t }
    requires begins { (t : List DefinedPath) × (f : DefinedFresh DefinedPath)
        × BeginsAt setting.now.code t f start.now }
    ensures { IfOk result (λ b. (t : List DefinedPath) (f : DefinedFresh DefinedPath) (e : Known)
        → Names births.now t → BeginsAt setting.now.code t f start.now → StandsFor entry.now e
        → b ≡ true ↔ IsValid e path.now f setting.now.inputs.items) }
{
    if !starts_alike(path, start, entry) {
        return Ok(false);
    }
    if !has_inputs(setting, entry) {
        return Ok(false);
    }
    let args = has_args(alloc, setting, births, start, entry)?;
    if !args {
        return Ok(false);
    }
    let read = has_reads(alloc, setting, births, start, entry)?;
    Ok(read)
}
