//! Values of words.

ghost use Rattle.std.specs.Prelude.{◌≡◌, ◌≤◌, ◌↔◌, IfOk, List, length, true};
ghost use Rattle.rev_num.specs.Path.{Path as DefinedPath};
ghost use Rattle.code_world.specs.Endings.{Names};
ghost use Rattle.code_runs.specs.Births.{path_in};
ghost use Rattle.rev_record.specs.Words.{args_of, kept_at, written_of};

use crate::entry::KeptValue;
use crate::kinds::kind_of;
use code_runs::value_of;
use code_world::Birth;
use rev_code::CodeVar;
use rev_num::{Value, ValueKind};
use std::alloc::{AllocError, Global};
use version_map::Written;

/// Whether two values are the same.
pub(crate) fn is_value(a: &Value, b: &Value) -> bool
    ensures { result ≡ true ↔ a.now ≡ b.now }
{
    a == b
}

/// Whether these are the same values, one by one.
pub(crate) fn are_values(a: &[Value], b: &[Value]) -> bool
    ensures { result ≡ true ↔ a.now ≡ b.now }
{
    if a.len() != b.len() {
        return false;
    }
    for at in 0..a.len() {
        let same = is_value(&a[at], &b[at]);
        if !same {
            return false;
        }
    }
    true
}

/// The values of arguments of these kinds.
pub(crate) fn args_values(
    alloc: Global,
    births: &[Birth],
    kinds: &[ValueKind],
    words: &[u64],
) -> Result<Vec<Value>, AllocError>
    requires names { (paths : List DefinedPath) × Names births.now paths }
    requires many { length words.now ≤ length kinds.now }
    ensures { IfOk result (λ v. (paths : List DefinedPath) → Names births.now paths
        → v.items ≡ args_of (path_in paths) kinds.now words.now) }
{
    let mut values = Vec::with_capacity(alloc, words.len())?;
    for at in 0..words.len() {
        let value = value_of(alloc, births, kinds[at], words[at])?;
        values.push(value)?;
    }
    Ok(values)
}

/// A location with the value of this word.
pub(crate) fn kept(
    alloc: Global,
    births: &[Birth],
    variables: &[CodeVar],
    location: u32,
    word: u64,
) -> Result<KeptValue, AllocError>
    requires { (paths : List DefinedPath) × Names births.now paths }
    ensures { IfOk result (λ k. (paths : List DefinedPath) → Names births.now paths
        → k ≡ kept_at (path_in paths) variables.now location word) }
{
    let value = value_of(alloc, births, kind_of(variables, location), word)?;
    Ok(KeptValue { location, value })
}

/// The locations that were written, with their values.
pub(crate) fn kept_writes(
    alloc: Global,
    births: &[Birth],
    variables: &[CodeVar],
    written: &[Written],
) -> Result<Vec<KeptValue>, AllocError>
    requires { (paths : List DefinedPath) × Names births.now paths }
    ensures { IfOk result (λ v. (paths : List DefinedPath) → Names births.now paths
        → v.items ≡ written_of (path_in paths) variables.now written.now) }
{
    let mut all = Vec::with_capacity(alloc, written.len())?;
    for one in written {
        let write = kept(alloc, births, variables, one.location, one.value)?;
        all.push(write)?;
    }
    Ok(all)
}
