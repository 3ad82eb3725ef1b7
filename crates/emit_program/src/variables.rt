//! The shared variables of code.

ghost use Rattle.std.specs.Prelude.{◌≡◌, ◌++◌, IfOk, OnOk, map, option_copied, option_map};
ghost use Rattle.std.specs.Prelude.{slice_get};
ghost use Rattle.rev_syntax.specs.View.{constant, declaration, program as whole};
ghost use Rattle.typed_programs.specs.Layout.{variables};
ghost use Rattle.typed_programs.specs.Limits.{funs};
ghost use Rattle.revision_calculus.specs.Program.{constant_value, first_value};
ghost use Rattle.code_generation.specs.Generated.{value_word, var_of};
ghost use Rattle.emit_program.specs.Numbering.{merges_from};
ghost use Rattle.emit_program.specs.Variables.{entry_in, var_in, vars_in};

use crate::blocks::ValueBlocks;
use rev_code::CodeVar;
use rev_num::{Items, Value, ValueKind, word_of_int};
use rev_syntax::{Const, Decl};
use std::alloc::{AllocError, Global};
use typed_programs::{SharedInfo, Typed};

/// The word of a constant. Of handles, `none` alone can be written.
fn word_of_value(value: &Value) -> u64
    ensures { result ≡ value_word (constant_value value.now) }
{
    match value {
        Value::Int(n) => word_of_int(*n),
        Value::Bool(true) => 1,
        Value::Bool(false) => 0,
        Value::Rev(_) => 0,
    }
}

/// The word of the start value of a shared variable of this kind.
fn start_word(kind: ValueKind, first: &Option<Const>) -> u64
    ensures { result ≡ value_word (first_value kind (option_map constant first.now)) }
{
    match (first, kind) {
        (Some(constant), _) => word_of_value(&constant.value),
        (None, ValueKind::Int) => 0,
        (None, ValueKind::Bool) => 0,
        (None, ValueKind::Rev) => 0,
    }
}

/// The merge block of a cumulative variable, and 65,535 of a versioned one.
fn merge_entry(blocks: &ValueBlocks, merge: Option<u32>) -> u16
    ensures { result ≡ entry_in blocks.now.merges.items blocks.now.next merge }
{
    let Some(number) = merge else {
        return u16::MAX;
    };
    match blocks.merges.get(number as usize) {
        Some(block) => *block,
        None => blocks.next,
    }
}

/// Enters the variable of a row, whose declaration this is.
fn enter_var(
    alloc: Global,
    blocks: &ValueBlocks,
    vars: &mut Vec<CodeVar>,
    info: SharedInfo,
    decl: Option<&Decl>,
) -> Result<(), AllocError>
    ensures { OnOk result
        (vars.new.items
        ≡ vars.old.items ++ var_in blocks.now.merges.items blocks.now.next info
        (option_map declaration (option_copied decl.entry))) }
{
    match decl {
        Some(
            Decl::Shared {
                name,
                by,
                holds,
                first,
                ..
            },
        ) => {
            vars.push(CodeVar {
                name: Items::from_vec(Vec::from_slice(alloc, &name.text)?),
                cumulative: by.is_some(),
                kind: *holds,
                array: info.array,
                cells: info.cells,
                start: start_word(*holds, first),
                merge: merge_entry(blocks, info.merge),
            })?;
            Ok(())
        }
        _ => Ok(()),
    }
}

/// The declaration of this number.
#[tactic(auto, using(typed_programs::proofs::Declared::slice_get_mapped))]
fn declared(decls: &[Decl], number: u32) -> Option<&Decl>
    ensures { option_map declaration (option_copied result)
        ≡ slice_get (map declaration decls.now) number }
{
    decls.get(number as usize)
}

/// The variables of these rows.
fn vars_of_rows(
    alloc: Global,
    blocks: &ValueBlocks,
    decls: &[Decl],
    rows: &[SharedInfo],
) -> Result<Items<CodeVar>, AllocError>
    ensures { IfOk result
        (λ vs. vs ≡ vars_in blocks.now.merges.items blocks.now.next (map declaration decls.now)
        rows.now) }
{
    let mut vars = Vec::new(alloc);
    for info in rows {
        enter_var(alloc, blocks, &mut vars, *info, declared(decls, info.decl))?;
    }
    Ok(Items::from_vec(vars))
}

/// The shared variables of a program, whose funs and merges have these blocks.
pub fn code_vars(
    alloc: Global,
    blocks: &ValueBlocks,
    typed: &Typed,
) -> Result<Items<CodeVar>, AllocError>
    requires merges { blocks.now.merges.items
        ≡ merges_from 0 (whole typed.now.expanded.program).declarations }
    requires next { blocks.now.next ≡ funs (whole typed.now.expanded.program).declarations }
    ensures { IfOk result
        (λ vs. vs ≡ map (var_of (whole typed.now.expanded.program).declarations)
        (variables (whole typed.now.expanded.program))) }
{
    vars_of_rows(
        alloc,
        blocks,
        &typed.expanded.program.decls,
        typed.shared.as_slice(),
    )
}
