//! The kernel of each location.

ghost use Rattle.std.specs.Prelude.{◌≡◌, ◌++◌, ◌<◌, IfOk, OnOk, Some, length, map, replicate};
ghost use Rattle.rev_syntax.specs.View.{program as whole};
ghost use Rattle.typed_programs.specs.Layout.{variables};
ghost use Rattle.revision_calculus.specs.Join.{merges_of};
ghost use Rattle.code_generation.specs.Generated.{code_of};
ghost use Rattle.merge_kernels.specs.Plans.{AreWithin};
ghost use Rattle.merge_kernels.specs.Terms.{definition};
ghost use Rattle.rev_workers.specs.Plans.{IsPlanFor};
ghost use Rattle.kernel_choices.specs.Choices.{AreChoices, IsChoice, IsPlaceOf};

use crate::laws::choice_laws;
use merge_kernels::{Kernel, MergeDef, closed, find};
use std::alloc::{AllocError, Global};
use typed_programs::Typed;

/// The least place of a kernel with this definition, among the first 2^32.
fn place_of(kernels: &[Kernel], def: &MergeDef) -> Option<u32>
    ensures { IsPlaceOf (Some (definition def.now)) (map (λ k. definition k.def) kernels.now)
        result }
{
    match find(kernels, def) {
        Some(n) => {
            if n <= u32::MAX as usize {
                Some(n as u32)
            } else {
                None
            }
        },
        None => None,
    }
}

/// The kernel of a merge. A number beyond the merges has none.
fn kernel_of(
    alloc: Global,
    typed: &Typed,
    kernels: &[Kernel],
    merge: u32,
) -> Result<Option<u32>, AllocError>
    ensures { IfOk result (IsChoice (whole typed.now.expanded.program)
        (map (λ k. definition k.def) kernels.now) (Some merge)) }
{
    if merge as usize >= typed.expanded.merges.as_slice().len() {
        return Ok(None);
    }
    match closed(alloc, &typed.expanded, merge)? {
        Some(def) => Ok(place_of(kernels, &def)),
        None => Ok(None),
    }
}

/// The choice for a location with this merge, or with none.
fn choice_for(
    alloc: Global,
    typed: &Typed,
    kernels: &[Kernel],
    merge: Option<u32>,
) -> Result<Option<u32>, AllocError>
    ensures { IfOk result (IsChoice (whole typed.now.expanded.program)
        (map (λ k. definition k.def) kernels.now) merge) }
{
    match merge {
        Some(k) => kernel_of(alloc, typed, kernels, k),
        None => Ok(None),
    }
}

/// Appends this choice so many times.
#[tactic(auto, using(std::proofs::lemmas::List::replicate_more))]
fn append_copies(
    list: &mut Vec<Option<u32>>,
    choice: Option<u32>,
    count: u32,
) -> Result<(), AllocError>
    ensures { OnOk result (list.new.items ≡ list.old.items ++ replicate count choice) }
{
    for _i in 0..count {
        list.push(choice)?;
    }
    Ok(())
}

/// The choices for all locations of a program, in order.
fn choices_of(
    alloc: Global,
    typed: &Typed,
    kernels: &[Kernel],
) -> Result<Vec<Option<u32>>, AllocError>
    ensures { IfOk result (λ choices. AreChoices (whole typed.now.expanded.program)
        (map (λ k. definition k.def) kernels.now)
        (merges_of (variables (whole typed.now.expanded.program))) choices.items) }
{
    let rows = typed.shared.as_slice();
    let mut list = Vec::new(alloc);
    for info in rows {
        let choice = choice_for(alloc, typed, kernels, info.merge)?;
        append_copies(&mut list, choice, info.cells)?;
    }
    Ok(list)
}

/// For each location of a program the least place of a kernel with the definition of its merge. A
/// location without a merge has no kernel, nor has one whose merge applies a fun. Each choice is a
/// place of the kernels, and all make a plan for the program's code. Want of memory is the one
/// error.
pub fn choose_kernels(
    alloc: Global,
    typed: &Typed,
    kernels: &[Kernel],
) -> Result<Vec<Option<u32>>, AllocError>
    ensures chosen { IfOk result (λ choices. AreChoices (whole typed.now.expanded.program)
        (map (λ k. definition k.def) kernels.now)
        (merges_of (variables (whole typed.now.expanded.program))) choices.items) }
    ensures within { IfOk result (λ choices. AreWithin choices.items
        (map (λ k. definition k.def) kernels.now)) }
    ensures plan { IfOk result (λ choices. IsPlanFor
        (code_of (whole typed.now.expanded.program)) choices.items
        (map (λ k. definition k.def) kernels.now)) }
{
    choice_laws();
    let choices = choices_of(alloc, typed, kernels)?;
    Ok(choices)
}
