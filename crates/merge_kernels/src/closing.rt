//! The definition of a program's merge, where it applies no fun.

ghost use Rattle.std.specs.Prelude.{◌≡◌, ◌<◌, IfOk, length, map, option_map, slice_get};
ghost use Rattle.std.specs.Option.{option_copied};
ghost use Rattle.rev_syntax.specs.View.{declaration, program as whole};
ghost use Rattle.merge_kernels.specs.Terms.{definition};
ghost use Rattle.merge_kernels.specs.Merges.{term_in, term_of};

use crate::parameters::Parameters;
use crate::term::MergeDef;
use crate::terms::close;
use rev_syntax::Decl;
use std::alloc::{AllocError, Global};
use typed_programs::Expanded;

/// The definition of the merge that is declared here.
fn definition_in(alloc: Global, decl: &Decl) -> Result<Option<MergeDef>, AllocError>
    ensures { IfOk result (λ o. option_map definition o ≡ term_in (declaration decl.now)) }
{
    match decl {
        Decl::Merge {
            main,
            join,
            root,
            body,
            ..
        } => {
            let names = Parameters {
                main: main.text.as_slice(),
                join: join.text.as_slice(),
                root: root.text.as_slice(),
            };
            match close(alloc, names, body)? {
                Some(body) => Ok(Some(MergeDef { body })),
                None => Ok(None),
            }
        }
        _ => Ok(None),
    }
}

/// The declaration of this number.
#[tactic(auto, using(typed_programs::proofs::Declared::slice_get_mapped))]
fn declared(expanded: &Expanded, number: usize) -> Option<&Decl>
    ensures { option_map declaration (option_copied result)
        ≡ slice_get (map declaration expanded.now.program.decls.items) number }
{
    expanded.program.decls.get(number)
}

/// The definition of the merge of this number, counted from 0 in order of declaration; none where
/// it has none, as where it applies a fun.
pub fn closed(
    alloc: Global,
    expanded: &Expanded,
    merge: u32,
) -> Result<Option<MergeDef>, AllocError>
    requires { merge < length expanded.now.merges }
    ensures { IfOk result
        (λ o. option_map definition o ≡ term_of (whole expanded.now.program) merge) }
{
    let merges = expanded.merges.as_slice();
    let number = merges[merge as usize].decl as usize;
    match declared(expanded, number) {
        Some(decl) => definition_in(alloc, decl),
        None => Ok(None),
    }
}
