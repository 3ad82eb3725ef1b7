//! The checker of static rules.

ghost use Rattle.std.specs.Prelude.{◌≡◌, ◌<◌, ◌^◌, [], ◌++◌, None};
ghost use Rattle.std.specs.Prelude.{length, map, IfErr, IfOk, OnOk, option_map};
ghost use Rattle.rev_syntax.specs.View.{declaration, program as whole, placed_name};
ghost use Rattle.rev_kinds.specs.Walk.{names_of};
ghost use Rattle.typed_programs.specs.Accepted.{IsWellTyped, IsNotTyped};
ghost use Rattle.rev_types.specs.Passing.{passed_of};
ghost use Rattle.typed_programs.specs.Program as program;
ghost use Rattle.rev_types.specs.Tables.{Refuses};
ghost use Rattle.rev_types.specs.Walk as rule;

use crate::decls::decl;
use crate::lookup::name_tables;
use crate::passed::{Passed, cells_in};
use crate::statements::{Body, block};
use crate::tables::Tables;
use crate::typed::make_typed;
use name_tables::NameTable;
use rev_kinds::{Checker, first};
use rev_syntax::{Decl, Name, Program};
use std::alloc::{AllocError, Global};
use typed_programs::{Expanded, SharedInfo, TypeFault, Typed};

/// The number of the merge of a cumulative variable.
fn merge_number(merges: &NameTable<u32>, by: &Option<Name>) -> Option<u32>
    ensures { result ≡ program.merge_number merges.now (option_map placed_name by.now) }
{
    match by {
        None => None,
        Some(name) => merges.find(&name.text),
    }
}

/// Adds a declaration to the lists of shared variables and of procedures, after these declarations.
fn list(
    passed: &Passed,
    shared: &mut Vec<SharedInfo>,
    procs: &mut Vec<u32>,
    d: &Decl,
) -> Result<(), AllocError>
    ensures shared { OnOk result
        (shared.new.items
        ≡ shared.old.items ++ program.info_of (passed_of passed.now) (declaration d.now)) }
    ensures procs { OnOk result
        (procs.new.items
        ≡ procs.old.items ++ program.proc_of passed.now.number (declaration d.now)) }
{
    match d {
        Decl::Shared { by, size, .. } => {
            shared.push(SharedInfo {
                decl: passed.number,
                base: passed.located,
                cells: cells_in(*size),
                array: size.is_some(),
                merge: merge_number(&passed.merges, by),
            })?;
            Ok(())
        }
        Decl::Proc { .. } => {
            procs.push(passed.number)?;
            Ok(())
        }
        Decl::Fun { .. } => Ok(()),
        Decl::Merge { .. } => Ok(()),
    }
}

/// The first rule that declarations break, and what they declare.
#[tactic(auto, using(typed_programs::proofs::Appends::appends))]
fn declarations(
    alloc: Global,
    outer: &Checker,
    inner: &Checker,
    decls: &[Decl],
) -> Result<(Option<TypeFault>, Tables), AllocError>
    requires { length decls.now < 2 ^ 32 }
    ensures fault { IfOk result
        (λ r. r.0 ≡ rule.broken_in_declarations (names_of outer.now)
        (names_of inner.now) program.nothing_passed None (map declaration decls.now)) }
    ensures shared { IfOk result
        (λ r. r.1.shared.items
        ≡ program.infos program.nothing_passed (map declaration decls.now)) }
    ensures procs { IfOk result
        (λ r. r.1.procs.items ≡ program.proc_decls 0 (map declaration decls.now)) }
    ensures locations { IfOk result
        (λ r. r.1.locations
        ≡ (program.passed_all program.nothing_passed (map declaration decls.now)).located) }
{
    let mut passed = Passed::new(alloc);
    let mut found = None;
    let mut shared = Vec::new(alloc);
    let mut procs = Vec::new(alloc);
    for d in decls {
        let weight = passed.body_weight(d);
        found = first(found, decl(alloc, outer, inner, &passed, weight, d)?);
        list(&passed, &mut shared, &mut procs, d)?;
        passed.pass(alloc, d, weight)?;
    }
    let tables = Tables {
        shared,
        procs,
        locations: passed.located,
    };
    Ok((found, tables))
}

/// The first rule that a program breaks, and what it declares.
fn walked(alloc: Global, p: &Program) -> Result<(Option<TypeFault>, Tables), AllocError>
    requires { length p.now.decls.items < 2 ^ 32 }
    ensures fault { IfOk result (λ r. r.0 ≡ rule.broken_in_program (whole p.now)) }
    ensures shared { IfOk result
        (λ r. r.1.shared.items
        ≡ program.infos program.nothing_passed (map declaration p.now.decls.items)) }
    ensures procs { IfOk result
        (λ r. r.1.procs.items ≡ program.proc_decls 0 (map declaration p.now.decls.items)) }
    ensures locations { IfOk result (λ r. r.1.locations ≡ program.locations (whole p.now)) }
{
    let decls: &[Decl] = &p.decls;
    let names = name_tables(alloc, decls)?;
    let outer = Checker {
        shared: &names.shared,
        procs: &names.procs,
        funs: &names.funs,
        inside: false,
    };
    let inner = Checker {
        shared: &names.shared,
        procs: &names.procs,
        funs: &names.funs,
        inside: true,
    };
    let (declared, tables) = declarations(alloc, &outer, &inner, decls)?;
    let mut body = Body::new(alloc);
    let main = block(alloc, &outer, None, &mut body, &p.main)?;
    Ok((first(declared, main), tables))
}

/// What a program declares, or the first rule or limit that it breaks.
fn examined(alloc: Global, p: &Program) -> Result<Tables, TypeFault>
    requires { length p.now.decls.items < 2 ^ 32 }
    ensures keeps { OnOk result (program.faults (whole p.now) ≡ []) }
    ensures shared { IfOk result
        (λ t. t.shared.items
        ≡ program.infos program.nothing_passed (map declaration p.now.decls.items)) }
    ensures procs { IfOk result
        (λ t. t.procs.items ≡ program.proc_decls 0 (map declaration p.now.decls.items)) }
    ensures locations { IfOk result (λ t. t.locations ≡ program.locations (whole p.now)) }
    ensures err { IfErr result (Refuses (whole p.now)) }
    ensures untyped { IfErr result (IsNotTyped (whole p.now)) }
{
    let (broken, tables) = walked(alloc, p)?;
    if let Some(fault) = broken {
        return Err(fault);
    }
    Ok(tables)
}

/// The program with the tables of what it declares, or the first rule or limit that it breaks: the
/// one at the least place, and there the one of the least number. But for want of memory a program
/// is accepted exactly where it is well typed.
pub fn check(alloc: Global, expanded: Expanded) -> Result<Typed, TypeFault>
    ensures same { IfOk result (λ t. whole t.expanded.program ≡ whole expanded.program) }
    ensures keeps { OnOk result (program.faults (whole expanded.program) ≡ []) }
    ensures typed { OnOk result (IsWellTyped (whole expanded.program)) }
    ensures first { IfErr result (Refuses (whole expanded.program)) }
    ensures untyped { IfErr result (IsNotTyped (whole expanded.program)) }
{
    let tables = examined(alloc, &expanded.program)?;
    Ok(make_typed(expanded, tables))
}
