//! The values of the shared variables, from words.

ghost use Rattle.std.specs.Prelude.{◌≡◌, ◌++◌, IfOk, List, OnOk, length};
ghost use Rattle.rev_num.specs.Path.{Path as DefinedPath};
ghost use Rattle.block_run.specs.Area.{count};
ghost use Rattle.leg_run.specs.Standing.{handle_as, word_as};
ghost use Rattle.code_machine.specs.Outcome as machine;
ghost use Rattle.code_world.specs.Endings.{Names};
ghost use Rattle.code_runs.specs.Births.{path_in};
ghost use Rattle.code_runs.specs.Words.{cell_shown, cells_shown, variables_shown};

use crate::paths::path_of;
use code_world::Birth;
use rev_code::CodeVar;
use rev_num::{Items, Path, Shown, Value, ValueKind, int_of_word};
use std::alloc::{AllocError, Global};

/// What a handle's word names.
fn handle_of(alloc: Global, births: &[Birth], word: u64) -> Result<Option<Path>, AllocError>
    requires { (paths : List DefinedPath) × Names births.now paths }
    ensures { IfOk result (λ h. (paths : List DefinedPath) → Names births.now paths
        → h ≡ machine.handle_value (path_in paths) (handle_as word)) }
{
    if word == 0 {
        return Ok(None);
    }
    let path = path_of(alloc, births, (word - 1) as usize)?;
    Ok(Some(path))
}

/// The value of a word of this kind: a handle is the path of its revision. Want of memory is the
/// one error.
pub fn value_of(
    alloc: Global,
    births: &[Birth],
    kind: ValueKind,
    word: u64,
) -> Result<Value, AllocError>
    requires { (paths : List DefinedPath) × Names births.now paths }
    ensures { IfOk result (λ v. (paths : List DefinedPath) → Names births.now paths
        → v ≡ machine.value_of (path_in paths) (word_as kind word)) }
{
    match kind {
        ValueKind::Int => Ok(Value::Int(int_of_word(word))),
        ValueKind::Bool => Ok(Value::Bool(word != 0)),
        ValueKind::Rev => {
            let handle = handle_of(alloc, births, word)?;
            Ok(Value::Rev(handle))
        },
    }
}

/// What is shown of a variable's cell that has this word.
fn shown_cell(
    alloc: Global,
    births: &[Birth],
    variable: &CodeVar,
    cell: u32,
    word: u64,
) -> Result<Shown, AllocError>
    requires { (paths : List DefinedPath) × Names births.now paths }
    ensures { IfOk result (λ s. (paths : List DefinedPath) → Names births.now paths
        → s ≡ cell_shown (path_in paths) variable.now cell word) }
{
    let name = Vec::from_slice(alloc, variable.name.as_slice())?;
    let value = value_of(alloc, births, variable.kind, word)?;
    let cell = if variable.array { Some(cell) } else { None };
    Ok(Shown {
        name: Items::from_vec(name),
        cell,
        value,
    })
}

/// Appends what is shown of a variable, whose locations have these words.
fn append_variable(
    alloc: Global,
    shown: &mut Vec<Shown>,
    births: &[Birth],
    variable: &CodeVar,
    words: &[u64],
) -> Result<(), AllocError>
    requires named { (paths : List DefinedPath) × Names births.now paths }
    requires all { length words.now ≡ variable.now.cells }
    ensures { OnOk result ((paths : List DefinedPath) → Names births.now paths
        → shown.new.items ≡ shown.old.items
        ++ cells_shown (path_in paths) variable.now 0 words.now) }
{
    for cell in 0..variable.cells {
        let one = shown_cell(alloc, births, variable, cell, words[cell as usize])?;
        shown.push(one)?;
    }
    Ok(())
}

/// What is shown of all variables, whose locations have these words: a value for each location in
/// order, with the name of its variable, and the number of its cell in an array.
pub(crate) fn shown_values(
    alloc: Global,
    variables: &[CodeVar],
    births: &[Birth],
    words: &[u64],
) -> Result<Vec<Shown>, AllocError>
    requires named { (paths : List DefinedPath) × Names births.now paths }
    requires all { length words.now ≡ count variables.now }
    ensures { IfOk result (λ v. (paths : List DefinedPath) → Names births.now paths
        → v.items ≡ variables_shown (path_in paths) variables.now words.now) }
{
    let mut shown = Vec::with_capacity(alloc, words.len())?;
    let mut rest = words;
    for variable in variables {
        let (own, behind) = rest.split_at(variable.cells as usize);
        append_variable(alloc, &mut shown, births, variable, own)?;
        rest = behind;
    }
    Ok(shown)
}
