//! The tables of a setting.

ghost use Rattle.std.specs.Prelude.{◌≡◌, ◌++◌, [], IfOk, OnOk, option_copied, option_map};
ghost use Rattle.std.specs.Prelude.{replicate, slice_get};
ghost use Rattle.rev_syntax.specs.View.{declaration, program as whole};
ghost use Rattle.name_tables.specs.Names as names;
ghost use Rattle.name_tables.specs.Table.{find};
ghost use Rattle.typed_programs.specs.Layout as layout;
ghost use Rattle.revision_calculus.specs.Join.{merges_of};
ghost use Rattle.revision_state.specs.Tables.{entered, info_of, merges_in, number_of, proc_at};
ghost use Rattle.revision_state.specs.Tables.{proc_name, shared_at, shared_name, with_row};
ghost use Rattle.revision_state.specs.Views.{given};

use crate::bodies::Bodies;
use crate::setting::Setting;
use name_tables::NameTable;
use rev_syntax::Decl;
use std::alloc::{AllocError, Global};
use typed_programs::{SharedInfo, Typed};

/// The declaration of this number.
#[tactic(auto, using(typed_programs::proofs::Declared::slice_get_mapped))]
pub fn declared(typed: &Typed, number: u32) -> Option<&Decl>
    ensures { option_map declaration (option_copied result)
        ≡ slice_get (whole typed.now.expanded.program).declarations number }
{
    typed.expanded.program.decls.get(number as usize)
}

/// The name of a declared shared variable.
fn name_of_shared(decl: Option<&Decl>) -> Option<&[u8]>
    ensures { option_copied result
        ≡ shared_name (option_map declaration (option_copied decl.entry)) }
{
    match decl {
        Some(
            Decl::Shared {
                name,
                by: _,
                kind_at: _,
                holds: _,
                size: _,
                first: _,
            },
        ) => Some(&name.text),
        _ => None,
    }
}

/// The name of a declared procedure.
fn name_of_proc(decl: Option<&Decl>) -> Option<&[u8]>
    ensures { option_copied result ≡ proc_name (option_map declaration (option_copied decl.entry)) }
{
    match decl {
        Some(
            Decl::Proc {
                name,
                params: _,
                result: _,
                body: _,
            },
        ) => Some(&name.text),
        _ => None,
    }
}

/// Enters a row by its name, if it has one that is new.
fn enter<V: Copy + Drop>(
    alloc: Global,
    table: &mut NameTable<V>,
    name: Option<&[u8]>,
    row: V,
) -> Result<(), AllocError>
    ensures { OnOk result (table.new ≡ with_row (option_copied name.entry) table.old row) }
{
    match name {
        Some(name) => table.add(alloc, name, row),
        None => Ok(()),
    }
}

/// The table of these rows of shared variables, where the first of a name stays.
fn enter_variables(
    alloc: Global,
    typed: &Typed,
    rows: &[SharedInfo],
) -> Result<NameTable<SharedInfo>, AllocError>
    ensures { IfOk result
        (λ t. t ≡ entered (shared_at (whole typed.now.expanded.program).declarations) [] rows.now) }
{
    let mut table = NameTable::new(alloc);
    for info in rows {
        enter(
            alloc,
            &mut table,
            name_of_shared(declared(typed, info.decl)),
            *info,
        )?;
    }
    Ok(table)
}

/// The first shared variable of each name.
fn variable_table(alloc: Global, typed: &Typed) -> Result<NameTable<SharedInfo>, AllocError>
    ensures { IfOk result
        (λ t. (name : names.Name) → find name t ≡ info_of (whole typed.now.expanded.program) name) }
{
    enter_variables(alloc, typed, typed.shared.as_slice())
}

/// The table of these numbers of procedures, where the first of a name stays.
fn enter_procedures(
    alloc: Global,
    typed: &Typed,
    rows: &[u32],
) -> Result<NameTable<u32>, AllocError>
    ensures { IfOk result
        (λ t. t ≡ entered (proc_at (whole typed.now.expanded.program).declarations) [] rows.now) }
{
    let mut table = NameTable::new(alloc);
    for number in rows {
        enter(
            alloc,
            &mut table,
            name_of_proc(declared(typed, *number)),
            *number,
        )?;
    }
    Ok(table)
}

/// The number of the declaration of the first procedure of each name.
fn procedure_table(alloc: Global, typed: &Typed) -> Result<NameTable<u32>, AllocError>
    ensures { IfOk result
        (λ t. (name : names.Name) → find name t
        ≡ number_of (whole typed.now.expanded.program) name) }
{
    enter_procedures(alloc, typed, typed.procs.as_slice())
}

/// Appends this merge, or none, so many times.
#[tactic(auto, using(std::proofs::lemmas::List::replicate_more))]
fn append_copies(
    list: &mut Vec<Option<u32>>,
    merge: Option<u32>,
    count: u32,
) -> Result<(), AllocError>
    ensures { OnOk result (list.new.items ≡ list.old.items ++ replicate count merge) }
{
    for _i in 0..count {
        list.push(merge)?;
    }
    Ok(())
}

/// The number of the merge of each location of these rows that has one.
fn merges_of_rows(alloc: Global, rows: &[SharedInfo]) -> Result<Vec<Option<u32>>, AllocError>
    ensures { IfOk result (λ list. list.items ≡ merges_in rows.now) }
{
    let mut list = Vec::new(alloc);
    for info in rows {
        append_copies(&mut list, info.merge, info.cells)?;
    }
    Ok(list)
}

/// The number of the merge of each location that has one.
fn merge_list(alloc: Global, typed: &Typed) -> Result<Vec<Option<u32>>, AllocError>
    ensures { IfOk result
        (λ list. list.items ≡ merges_of (layout.variables (whole typed.now.expanded.program))) }
{
    merges_of_rows(alloc, typed.shared.as_slice())
}

/// A setting with its tables.
fn make<'a>(
    typed: &'a Typed,
    input: &'a [i64],
    share: u64,
    variables: NameTable<SharedInfo>,
    procedures: NameTable<u32>,
    bodies: Bodies,
    merges: Vec<Option<u32>>,
) -> Setting<'a>
    requires variables { (name : names.Name) → find name variables
        ≡ info_of (whole typed.now.expanded.program) name }
    requires procedures { (name : names.Name) → find name procedures
        ≡ number_of (whole typed.now.expanded.program) name }
    requires merges { merges.items
        ≡ merges_of (layout.variables (whole typed.now.expanded.program)) }
    ensures { given result
        ≡ record { program = whole typed.now.expanded.program; inputs = input.now; share = share } }
{
    Setting {
        typed,
        input,
        share,
        variables,
        procedures,
        bodies,
        merges,
    }
}

impl<'a> Setting<'a> {
    /// The setting of runs of this program with these input numbers, where a fork gives at most
    /// this share of fuel.
    pub fn new(
        alloc: Global,
        typed: &'a Typed,
        input: &'a [i64],
        share: u64,
    ) -> Result<Setting<'a>, AllocError>
        ensures { IfOk result
            (λ s. given s
            ≡ record {
              program = whole typed.now.expanded.program;
              inputs = input.now;
              share = share;
            }) }
    {
        let variables = variable_table(alloc, typed)?;
        let procedures = procedure_table(alloc, typed)?;
        let bodies = Bodies::of(alloc, &typed.expanded.program)?;
        let merges = merge_list(alloc, typed)?;
        Ok(make(typed, input, share, variables, procedures, bodies, merges))
    }
}
