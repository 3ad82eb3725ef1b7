//! Which fun each application means.

ghost use Rattle.std.specs.Prelude.{◌≡◌, ◌<◌, ◌^◌, [], IfErr, IfOk, OnOk, length, map};
ghost use Rattle.std.specs.declared.alloc.AllocError.{AllocError};
ghost use Rattle.rev_syntax.specs.Small.{IsSmall};
ghost use Rattle.rev_syntax.specs.View.{declaration, program as whole};
ghost use Rattle.typed_programs.specs.FunRules as rule;
ghost use Rattle.typed_programs.specs.Least.{first_of, is_less, least};
ghost use Rattle.name_tables.specs.Names.{Name};
ghost use Rattle.name_tables.specs.Table.{find};
ghost use Rattle.merge_decl.specs.Uses.{use_of, uses_of};
ghost use Rattle.typed_programs.specs.Expands.{IsFirstBroken, Refuses, decls_of_funs, decls_of_merges};

use crate::uses::{Use, uses_in};
use name_tables::NameTable;
use rev_num::Items;
use rev_syntax::{Decl, Program};
use std::alloc::{AllocError, Global};
use typed_programs::{Expanded, FunDef, FunHead, MergeFault, MergeRef};

fn place(fault: MergeFault) -> u32
    ensures { result ≡ rule.place fault }
{
    match fault {
        MergeFault::UnknownFun { at } => at,
        MergeFault::LaterFun { at } => at,
        MergeFault::Arity { at } => at,
        MergeFault::OutOfMemory => 0,
    }
}

fn rank(fault: MergeFault) -> u8
    ensures { result ≡ rule.rank fault }
{
    match fault {
        MergeFault::UnknownFun { .. } => 1,
        MergeFault::LaterFun { .. } => 2,
        MergeFault::Arity { .. } => 3,
        MergeFault::OutOfMemory => 4,
    }
}

/// Whether a fault is at a lesser place than another, or at the same with a lesser rank.
pub fn precedes(f: MergeFault, g: MergeFault) -> bool
    ensures { result ≡ is_less (rule.place f) (rule.rank f) (rule.place g) (rule.rank g) }
{
    if place(f) < place(g) {
        true
    } else if place(g) < place(f) {
        false
    } else {
        rank(f) < rank(g)
    }
}

/// The first of two faults, either of which may be absent.
pub fn first(a: Option<MergeFault>, b: Option<MergeFault>) -> Option<MergeFault>
    ensures { result ≡ first_of rule.place rule.rank a b }
{
    match (a, b) {
        (Some(f), Some(g)) => Some(if precedes(g, f) { g } else { f }),
        (Some(f), None) => Some(f),
        (None, b) => b,
    }
}

/// The first rule that an application breaks, where its name means this fun.
fn broken(u: &Use, head: Option<FunHead>) -> Option<MergeFault>
    ensures { result ≡ least rule.place rule.rank (rule.broken_by (use_of u.now) head) }
{
    let at = u.name.at;
    let Some(head) = head else {
        return Some(MergeFault::UnknownFun { at });
    };
    if u.within <= head.decl as usize {
        return Some(MergeFault::LaterFun { at });
    }
    if u.args == head.params {
        None
    } else {
        Some(MergeFault::Arity { at })
    }
}

/// The first rule that the applications break.
#[tactic(auto, using(typed_programs::proofs::Leasts::leasts))]
fn first_broken(table: &NameTable<FunHead>, uses: &[Use]) -> Option<MergeFault>
    ensures { result
        ≡ least rule.place rule.rank
        (rule.broken_in (λ name. find name table.now) (uses_of uses.now)) }
{
    let mut best = None;
    for u in uses {
        best = first(best, broken(u, table.find(&u.name.text)));
    }
    best
}

/// The first fun of each name.
fn fun_table(alloc: Global, decls: &[Decl]) -> Result<NameTable<FunHead>, AllocError>
    requires { length decls.now < 2 ^ 32 }
    ensures { IfOk result
        (λ t. (name : Name) → find name t ≡ rule.first_fun 0 0 (map declaration decls.now) name) }
{
    let mut table = NameTable::new(alloc);
    let mut number = 0u32;
    for (decl, d) in decls.iter().enumerate() {
        if let Decl::Fun { name, params, .. } = d {
            let head = FunHead {
                decl: decl as u32,
                number,
                params: params.len(),
            };
            table.add(alloc, &name.text, head)?;
            number += 1;
        }
    }
    Ok(table)
}

fn fun_list(alloc: Global, decls: &[Decl]) -> Result<Vec<FunDef>, AllocError>
    requires { length decls.now < 2 ^ 32 }
    ensures { IfOk result
        (λ fs. decls_of_funs fs.items ≡ rule.fun_decls 0 (map declaration decls.now)) }
{
    let mut funs = Vec::new(alloc);
    for (decl, d) in decls.iter().enumerate() {
        if let Decl::Fun { .. } = d {
            funs.push(FunDef { decl: decl as u32 })?;
        }
    }
    Ok(funs)
}

fn merge_list(alloc: Global, decls: &[Decl]) -> Result<Vec<MergeRef>, AllocError>
    requires { length decls.now < 2 ^ 32 }
    ensures { IfOk result
        (λ ms. decls_of_merges ms.items ≡ rule.merge_decls 0 (map declaration decls.now)) }
{
    let mut merges = Vec::new(alloc);
    for (decl, d) in decls.iter().enumerate() {
        if let Decl::Merge { .. } = d {
            merges.push(MergeRef { decl: decl as u32 })?;
        }
    }
    Ok(merges)
}

fn number_at(head: Option<FunHead>) -> u32
    ensures { result ≡ rule.number_at head }
{
    match head {
        Some(head) => head.number,
        None => 0,
    }
}

fn numbers(alloc: Global, table: &NameTable<FunHead>, uses: &[Use]) -> Result<Vec<u32>, AllocError>
    ensures { IfOk result
        (λ ns. ns.items ≡ rule.numbers_of (λ name. find name table.now) (uses_of uses.now)) }
{
    let mut all = Vec::with_capacity(alloc, uses.len())?;
    for u in uses {
        all.push(number_at(table.find(&u.name.text)))?;
    }
    Ok(all)
}

/// The numbers of the funs of the program's applications, or the first rule that is broken.
fn resolved(
    alloc: Global,
    table: &NameTable<FunHead>,
    program: &Program,
) -> Result<Vec<u32>, MergeFault>
    ensures keeps { OnOk result
        (rule.broken_in (λ name. find name table.now) (rule.uses_in (whole program.now)) ≡ []) }
    ensures numbers { IfOk result
        (λ ns. ns.items
        ≡ rule.numbers_of (λ name. find name table.now) (rule.uses_in (whole program.now))) }
    ensures err { IfErr result
        (IsFirstBroken (λ name. find name table.now) (rule.uses_in (whole program.now))) }
{
    let uses = uses_in(alloc, program)?;
    if let Some(fault) = first_broken(table, &uses) {
        return Err(fault);
    }
    Ok(numbers(alloc, table, &uses)?)
}

/// The parts of an expanded program together.
fn assembled(
    program: Program,
    funs: Vec<FunDef>,
    merges: Vec<MergeRef>,
    uses: Vec<u32>,
    table: NameTable<FunHead>,
) -> Expanded
    requires small { IsSmall (whole program) }
    requires few { length program.decls.items < 2 ^ 32 }
    requires found { (name : Name) → find name table ≡ rule.fun_named (whole program) name }
    requires keeps { rule.broken_in (λ name. find name table) (rule.uses_in (whole program)) ≡ [] }
    requires funs_listed { decls_of_funs funs.items
        ≡ rule.fun_decls 0 (map declaration program.decls.items) }
    requires merges_listed { decls_of_merges merges.items
        ≡ rule.merge_decls 0 (map declaration program.decls.items) }
    requires numbered { uses.items
        ≡ rule.numbers_of (λ name. find name table) (rule.uses_in (whole program)) }
    ensures same { whole result.program ≡ whole program }
    ensures kept { rule.fun_faults (whole program) ≡ [] }
{
    Expanded {
        program,
        funs: Items::from_vec(funs),
        merges: Items::from_vec(merges),
        uses: Items::from_vec(uses),
        table,
    }
}

/// The program with the number of the fun of each application, or the first rule on funs that it
/// breaks: the one at the least place, and there the first of `UnknownFun`, `LaterFun` and `Arity`.
/// The program is small, as one that was parsed is: it has fewer than 2^24 parts, its words have the
/// forms of the language, and its expressions are no deeper than a text can nest them (`IsSmall`).
///
/// A name means the first fun of that name. A fun or a merge may apply the funs that are declared
/// before it, and everything else may apply all.
#[tactic(auto, using(crate::proofs::Few::few_declarations))]
pub fn expand_funs(alloc: Global, program: Program) -> Result<Expanded, MergeFault>
    requires { IsSmall (whole program) }
    ensures same { IfOk result (λ e. whole e.program ≡ whole program) }
    ensures keeps { OnOk result (rule.fun_faults (whole program) ≡ []) }
    ensures first { IfErr result (Refuses (whole program)) }
{
    let table = fun_table(alloc, &program.decls)?;
    let uses = resolved(alloc, &table, &program)?;
    let funs = fun_list(alloc, &program.decls)?;
    let merges = merge_list(alloc, &program.decls)?;
    Ok(assembled(program, funs, merges, uses, table))
}
