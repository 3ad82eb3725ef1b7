//! One step of a revision.

ghost use Rattle.std.specs.Prelude.{◌≡◌, IfOk};
ghost use Rattle.revision_machine.specs.Rules.{IsWithin};
ghost use Rattle.revision_machine.specs.Laws.{IsDistinct};
ghost use Rattle.revision_machine.specs.PathIndex.{IsIndexed};
ghost use Rattle.revision_machine.specs.RevisionList.{paths};
ghost use Rattle.revision_machine.specs.States.{global_of, global_after, Answers};

use crate::language::Language;
use crate::list::step_at;
use crate::place_table::PlaceTable;
use crate::state::{GlobalState, RevisionRow, RevisionRows};
use rev_num::Path;
use std::alloc::{AllocError, Global};

/// How a step came out.
#[derive(Drop)]
pub enum StepOutcome {
    /// The revision made its step.
    Moved,
    /// It joins the revision at `on`, which has not ended.
    Waits { on: Path },
    /// It has ended, or is marked Joined.
    Ended,
    /// The state is Twice, since before the step or by it.
    Twice,
    /// The state has no such revision.
    NoSuch,
}

/// The state after a step of the revision at `path`, and how it came out. For `Waits`, `Ended` and
/// `NoSuch` it is the given one, which a run has reached from a first state within the limit. Want
/// of memory is the one error.
pub fn step<L: Language>(
    language: &L,
    alloc: Global,
    state: GlobalState<L::State>,
    path: &Path,
) -> Result<(GlobalState<L::State>, StepOutcome), AllocError>
    requires { IsWithin (L.rules language.now) (global_of state) }
    ensures answers { IfOk result (λ r. Answers (L.rules language.now) path.now state r) }
    ensures reached { IfOk result (λ r. IsWithin (L.rules language.now) (global_of r.0)) }
{
    let RevisionRows {
        mut list,
        mut places,
    } = match state {
        GlobalState::Twice => return Ok((GlobalState::Twice, StepOutcome::Twice)),
        GlobalState::Live(live) => live,
    };
    let i = match places.find(path) {
        Some(i) => i,
        None => return Ok((
            GlobalState::Live(RevisionRows { list, places }),
            StepOutcome::NoSuch,
        )),
    };
    let outcome = step_at(language, alloc, &mut list, &mut places, i)?;
    Ok((state_after(list, places, &outcome), outcome))
}

fn state_after<R: Drop>(
    list: Vec<RevisionRow<R>>,
    places: PlaceTable,
    outcome: &StepOutcome,
) -> GlobalState<R>
    requires distinct { IsDistinct (paths list.items) }
    requires indexed { IsIndexed places.map (paths list.items) }
    ensures { global_of result ≡ global_after outcome.now list.items }
{
    match outcome {
        StepOutcome::Twice => GlobalState::Twice,
        StepOutcome::Moved | StepOutcome::Waits { .. } | StepOutcome::Ended | StepOutcome::NoSuch =>
            { GlobalState::Live(RevisionRows { list, places }) }
    }
}
