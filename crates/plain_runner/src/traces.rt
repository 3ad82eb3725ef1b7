//! The trace of a program.

ghost use Rattle.std.specs.Prelude.{◌≡◌, ◌≤◌, IfOk};
ghost use Rattle.std.specs.List.Sorted.{IsPermutation};
ghost use Rattle.rev_num.specs.Limits.{most_fuel};
ghost use Rattle.rev_syntax.specs.View.{program as whole};
ghost use Rattle.audit_rules.specs.Traced.{HasTrace};
ghost use Rattle.trace_parts.specs.PartOfRevision.{part_by};
ghost use Rattle.plain_runner.specs.Made.{parts_by};

use crate::language::PlainLanguage;
use rev_num::{Bytes, Items};
use revision_machine::{GlobalState, RevisionRow};
use revision_parts::part_of;
use revision_steps::Local;
use std::alloc::{AllocError, Global};
use trace_diagram::{Part, Trace};
use trace_parts::{places_of, put_in_order};
use typed_programs::Typed;

/// The part of a revision, which is let go.
fn into_part<'a>(
    alloc: Global,
    places: &[Bytes],
    revision: RevisionRow<Local<'a>>,
) -> Result<Part, AllocError>
    ensures { IfOk result (λ p. p ≡ part_by places.now revision.entry.path revision.entry.state) }
{
    part_of(alloc, places, revision.path, &revision.state)
}

/// The parts of these revisions, in any order.
fn parts_of<'a>(
    alloc: Global,
    places: &[Bytes],
    revisions: Vec<RevisionRow<Local<'a>>>,
) -> Result<Vec<Part>, AllocError>
    ensures { IfOk result
        (λ v. IsPermutation (parts_by places.now revisions.entry.items) v.items) }
{
    let mut parts = Vec::with_capacity(alloc, revisions.len())?;
    let mut rest = revisions;
    while let Some(revision) = rest.pop() {
        parts.push(into_part(alloc, places, revision)?)?;
    }
    Ok(parts)
}

/// The trace of the program with these inputs, the most fuel that a fork gives, and this fuel, of
/// which there are at most 4,000,000,000 units: that of the final state of every complete run,
/// whatever the order of its steps, and none where that is the state of a second join. Want of
/// memory is the one error.
pub fn trace_of(
    alloc: Global,
    typed: &Typed,
    input: &[i64],
    share: u64,
    fuel: u64,
) -> Result<Option<Trace>, AllocError>
    requires { fuel ≤ most_fuel }
    ensures { IfOk result
        (λ t. HasTrace
        (record {
          program = whole typed.now.expanded.program;
          inputs = input.now;
          share = share;
        }) fuel t) }
{
    let places = places_of(alloc, typed)?;
    let language = PlainLanguage::new(alloc, typed, input, share)?;
    match language.run(alloc, fuel)? {
        GlobalState::Twice => Ok(None),
        GlobalState::Live(revisions) => {
            let mut parts = parts_of(alloc, &places, revisions.list)?;
            put_in_order(&mut parts);
            Ok(Some(Trace {
                parts: Items::from_vec(parts),
            }))
        }
    }
}
