//! Tables of what the names of a program mean.

ghost use Rattle.std.specs.Prelude.{◌≡◌, Some, [], map, IfOk, OnOk};
ghost use Rattle.rev_syntax.specs.View.{declaration};
ghost use Rattle.rev_types.specs.Tables as spec;

use name_tables::NameTable;
use rev_kinds::Callee;
use rev_syntax::Decl;
use std::alloc::{AllocError, Global};
use typed_programs::Holder;

/// The first shared variable, the first procedure and the first fun of each name.
#[derive(Drop)]
pub struct NameTables<'a> {
    pub shared: NameTable<Holder>,
    pub procs: NameTable<Callee<'a>>,
    pub funs: NameTable<Callee<'a>>,
}

impl<'a> NameTables<'a> {
    /// Before all declarations.
    fn new(alloc: Global) -> NameTables<'a>
        ensures shared { result.shared ≡ [] }
        ensures procs { spec.callees result.procs ≡ [] }
        ensures funs { spec.callees result.funs ≡ [] }
    {
        NameTables {
            shared: NameTable::new(alloc),
            procs: NameTable::new(alloc),
            funs: NameTable::new(alloc),
        }
    }

    /// Enters a declaration.
    #[tactic(auto, using(crate::proofs::Named::callees_added))]
    fn enter(&mut self, alloc: Global, d: &'a Decl) -> Result<(), AllocError>
        ensures shared { OnOk result
            (self.new.shared ≡ spec.with_shared self.old.shared (declaration d.now)) }
        ensures procs { OnOk result
            (spec.callees self.new.procs
            ≡ spec.with_proc (spec.callees self.old.procs) (declaration d.now)) }
        ensures funs { OnOk result
            (spec.callees self.new.funs
            ≡ spec.with_fun (spec.callees self.old.funs) (declaration d.now)) }
    {
        match d {
            Decl::Shared {
                name,
                holds,
                size,
                ..
            } => {
                let holder = Holder {
                    kind: *holds,
                    array: size.is_some(),
                };
                self.shared.add(alloc, &name.text, holder)
            }
            Decl::Proc {
                name,
                params,
                result,
                ..
            } => {
                let callee = Callee {
                    params,
                    result: *result,
                };
                self.procs.add(alloc, &name.text, callee)
            }
            Decl::Fun {
                name,
                params,
                result,
                ..
            } => {
                let callee = Callee {
                    params,
                    result: Some(*result),
                };
                self.funs.add(alloc, &name.text, callee)
            }
            Decl::Merge { .. } => Ok(()),
        }
    }
}

/// The tables of the names of declarations.
pub fn name_tables(alloc: Global, decls: &[Decl]) -> Result<NameTables<'_>, AllocError>
    ensures shared { IfOk result
        (λ t. t.shared ≡ spec.shared_table [] (map declaration decls.now)) }
    ensures procs { IfOk result
        (λ t. spec.callees t.procs ≡ spec.proc_table [] (map declaration decls.now)) }
    ensures funs { IfOk result
        (λ t. spec.callees t.funs ≡ spec.fun_table [] (map declaration decls.now)) }
{
    let mut tables = NameTables::new(alloc);
    for d in decls {
        tables.enter(alloc, d)?;
    }
    Ok(tables)
}
