//! What the revisions left of a run.

ghost use Rattle.std.specs.Prelude.{◌≡◌, IfOk, Some};
ghost use Rattle.revision_machine.specs.Numbered.{at_number};
ghost use Rattle.thread_runs.specs.Ends.{IsOwned, AreOwned};

use run_revision::CodeEnd;
use std::alloc::{AllocError, Global};
use version_map::EndValue;

/// The number of `main`.
const MAIN: usize = 0;

/// The end of `main`, which stands first and which nobody joined.
pub(crate) fn main_end<'r, E>(ends: &'r [Option<E>]) -> &'r E
    requires { (e : E) × (at_number ends.now 0 ≡ Some (Some e)) }
    ensures { at_number ends.now 0 ≡ Some (Some result.now) }
{
    match &ends[MAIN] {
        Some(end) => end,
        None => unreachable!(),
    }
}

/// An end, apart from what it ran under.
fn owned_end<'a>(end: Option<CodeEnd<'a>>) -> Option<Box<EndValue>>
    ensures { IsOwned end.entry result }
{
    match end {
        Some(end) => Some(end.into_value()),
        None => None,
    }
}

/// By number, the ends as values that borrow nothing. The values themselves are not copied. Want of
/// memory is the one error.
pub fn owned_ends<'a>(
    alloc: Global,
    ends: Vec<Option<CodeEnd<'a>>>,
) -> Result<Vec<Option<Box<EndValue>>>, AllocError>
    ensures { IfOk result (λ vs. AreOwned ends.entry.items vs.items) }
{
    let mut owned = Vec::with_capacity(alloc, ends.len())?;
    let mut rest = ends.into_iter();
    while let Some(end) = rest.next() {
        owned.push(owned_end(end))?;
    }
    Ok(owned)
}
