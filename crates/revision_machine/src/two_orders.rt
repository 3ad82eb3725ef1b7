//! Two steps in both orders.

ghost use Rattle.std.specs.Prelude.{◌≡◌, IfOk, None, Some};
ghost use Rattle.revision_machine.specs.Rules.{IsWithin};
ghost use Rattle.revision_machine.specs.States.{global_of};
ghost use Rattle.revision_machine.specs.TwoOrders.{IsDiamond, StepsTo, StaysWithin, IsBoth};

use crate::language::Language;
use crate::one_step::{StepOutcome, step};
use crate::place_table::places_of;
use crate::state::{GlobalState, RevisionRow, RevisionRows};
use rev_num::Path;
use std::alloc::{AllocError, Global};

/// What two steps in both orders lead to.
#[derive(Drop)]
pub enum BothOrders<R> {
    /// `left` is the state after the first path and then the second, `right` the other way round:
    /// they are equal.
    Same {
        left: GlobalState<R>,
        right: GlobalState<R>,
    },
    /// Both orders lead to Twice.
    Twice,
    /// The paths are equal, or one of them cannot step.
    NoPair,
}

/// An equal state.
pub fn copy_state<L: Language>(
    language: &L,
    alloc: Global,
    state: &GlobalState<L::State>,
) -> Result<GlobalState<L::State>, AllocError>
    ensures { IfOk result (λ s. global_of s ≡ global_of state.now) }
{
    let revisions = match state {
        GlobalState::Twice => return Ok(GlobalState::Twice),
        GlobalState::Live(revisions) => revisions,
    };
    let list = copy_revisions(language, alloc, revisions.list.as_slice())?;
    let places = places_of(alloc, list.as_slice())?;
    Ok(GlobalState::Live(RevisionRows { list, places }))
}

fn copy_revisions<L: Language>(
    language: &L,
    alloc: Global,
    revisions: &[RevisionRow<L::State>],
) -> Result<Vec<RevisionRow<L::State>>, AllocError>
    ensures { IfOk result (λ c. c.items ≡ revisions.now) }
{
    let mut copy = Vec::new(alloc);
    for revision in revisions {
        copy.push(RevisionRow {
            path: revision.path.copy(alloc)?,
            state: language.copy(alloc, &revision.state)?,
            joined: revision.joined,
        })?;
    }
    Ok(copy)
}

/// The state after a step of the revision at this path, if it can step.
fn after<L: Language>(
    language: &L,
    alloc: Global,
    state: GlobalState<L::State>,
    path: &Path,
) -> Result<Option<GlobalState<L::State>>, AllocError>
    requires { IsWithin (L.rules language.now) (global_of state) }
    ensures steps { IfOk result (λ r. StepsTo (L.rules language.now) state path.now r) }
    ensures reached { IfOk result (λ r. StaysWithin (L.rules language.now) state path.now r) }
{
    if let GlobalState::Twice = state {
        return Ok(None);
    }
    let (state, outcome) = step(language, alloc, state, path)?;
    match outcome {
        StepOutcome::Moved | StepOutcome::Twice => Ok(Some(state)),
        StepOutcome::Waits { .. } | StepOutcome::Ended | StepOutcome::NoSuch => Ok(None),
    }
}

/// The states after steps of the revisions at `p` and `q` in both orders, from a state that a run
/// has reached from a first one within the limit. Want of memory is the one error.
pub fn diamond_step<L: Language>(
    language: &L,
    alloc: Global,
    state: &GlobalState<L::State>,
    p: &Path,
    q: &Path,
) -> Result<BothOrders<L::State>, AllocError>
    requires { IsWithin (L.rules language.now) (global_of state.now) }
    ensures { IfOk result (λ d. IsDiamond (L.rules language.now) state.now p.now q.now d) }
{
    if p.is(q) {
        return Ok(BothOrders::NoPair);
    }
    let first = copy_state(language, alloc, state)?;
    let first = match after(language, alloc, first, p)? {
        Some(first) => first,
        None => return Ok(BothOrders::NoPair),
    };
    let second = copy_state(language, alloc, state)?;
    let second = match after(language, alloc, second, q)? {
        Some(second) => second,
        None => return Ok(BothOrders::NoPair),
    };
    let (left, _) = step(language, alloc, first, q)?;
    let (right, _) = step(language, alloc, second, p)?;
    Ok(both(left, right))
}

/// The two ends.
fn both<R: Drop>(left: GlobalState<R>, right: GlobalState<R>) -> BothOrders<R>
    requires { global_of left ≡ global_of right }
    ensures { IsBoth result (global_of left) }
{
    match left {
        GlobalState::Twice => BothOrders::Twice,
        GlobalState::Live(revisions) => BothOrders::Same {
            left: GlobalState::Live(revisions),
            right,
        },
    }
}
