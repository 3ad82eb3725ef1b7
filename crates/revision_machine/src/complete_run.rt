//! A run to its end.

ghost use Rattle.std.specs.Prelude.{◌≡◌, ◌<◌, ◌≤◌, ◌+◌, length, vec_len, IfOk, OnOk, All};
ghost use Rattle.revision_machine.specs.Machine.{Live};
ghost use Rattle.revision_machine.specs.Laws.{IsDistinct};
ghost use Rattle.revision_machine.specs.Rules.{machine_of, start_by, IsFirst, IsWithin};
ghost use Rattle.revision_machine.specs.PathIndex.{IsIndexed};
ghost use Rattle.revision_machine.specs.RevisionList.{paths, globe};
ghost use Rattle.revision_machine.specs.States.{global_of};
ghost use Rattle.revision_machine.specs.StepOutcomes.{IsEnd};
ghost use Rattle.revision_machine.specs.Progress.{Tries, TriesEach, TriesSome, most_of, moved_by};

use crate::language::Language;
use crate::list::step_at;
use crate::one_step::StepOutcome;
use crate::place_table::{PlaceTable, places_of};
use crate::state::{GlobalState, RevisionRow, RevisionRows};
use rev_num::Path;
use std::alloc::{AllocError, Global};

/// What came of some steps.
#[derive(Clone, Copy, Drop)]
enum Progress {
    Moved,
    Stuck,
    Twice,
}

/// The start of a run: `main` alone, at this local state, which holds no handle and is within the
/// limit. Want of memory is the one error.
pub fn start<L: Language>(
    language: &L,
    alloc: Global,
    main: L::State,
) -> Result<GlobalState<L::State>, AllocError>
    requires { IsFirst (L.rules language.now) main }
    ensures start { IfOk result (λ s. global_of s ≡ start_by (L.rules language.now) main) }
    ensures reached { IfOk result (λ s. IsWithin (L.rules language.now) (global_of s)) }
{
    let mut list = Vec::new(alloc);
    list.push(RevisionRow {
        path: Path::root(alloc),
        state: main,
        joined: false,
    })?;
    let places = places_of(alloc, list.as_slice())?;
    Ok(GlobalState::Live(RevisionRows { list, places }))
}

/// Steps the revision at this place. One that moved is to be tried again, and before it a child
/// that it forked.
fn try_step<L: Language>(
    language: &L,
    alloc: Global,
    list: &mut Vec<RevisionRow<L::State>>,
    places: &mut PlaceTable,
    place: usize,
    todo: &mut Vec<usize>,
) -> Result<Progress, AllocError>
    requires within { place < length list.old.items }
    requires distinct { IsDistinct (paths list.old.items) }
    requires indexed { IsIndexed places.old.map (paths list.old.items) }
    requires reached { IsWithin (L.rules language.now) (Live (globe list.old.items)) }
    requires todo { All (λ k. k < length list.old.items) todo.old.items }
    ensures progress { IfOk result (λ p. Tries (L.rules language.now) place p list.old list.new) }
    ensures distinct { OnOk result (IsDistinct (paths list.new.items)) }
    ensures indexed { OnOk result (IsIndexed places.new.map (paths list.new.items)) }
    ensures longer { OnOk result (length list.old.items ≤ length list.new.items) }
    ensures todo { OnOk result (All (λ k. k < length list.new.items) todo.new.items) }
    ensures more { IfOk result (λ p. vec_len todo.new ≤ vec_len todo.old + most_of p) }
{
    let before = list.len();
    match step_at(language, alloc, list, places, place)? {
        StepOutcome::Moved => {}
        StepOutcome::Twice => return Ok(Progress::Twice),
        StepOutcome::Waits { .. } | StepOutcome::Ended | StepOutcome::NoSuch => return Ok(
            Progress::Stuck,
        ),
    }
    note(todo, place, before, list.len())?;
    Ok(Progress::Moved)
}

/// Notes the place, and before it that of a new revision if there are more than before.
fn note(todo: &mut Vec<usize>, place: usize, before: usize, now: usize) -> Result<(), AllocError>
    requires within { place < now }
    requires todo { All (λ k. k < now) todo.old.items }
    ensures todo { OnOk result (All (λ k. k < now) todo.new.items) }
    ensures more { OnOk result (vec_len todo.new ≤ vec_len todo.old + 2) }
{
    todo.push(place)?;
    if before < now {
        todo.push(before)?;
    }
    Ok(())
}

/// Runs the list at these places, the last first, and those that they fork, each as far as it goes.
fn run_these<L: Language>(
    language: &L,
    alloc: Global,
    list: &mut Vec<RevisionRow<L::State>>,
    places: &mut PlaceTable,
    mut todo: Vec<usize>,
) -> Result<Progress, AllocError>
    requires distinct { IsDistinct (paths list.old.items) }
    requires indexed { IsIndexed places.old.map (paths list.old.items) }
    requires reached { IsWithin (L.rules language.now) (Live (globe list.old.items)) }
    requires todo { All (λ k. k < length list.old.items) todo.items }
    ensures progress { IfOk result (λ p. TriesSome (L.rules language.now) p list.old list.new) }
    ensures distinct { OnOk result (IsDistinct (paths list.new.items)) }
    ensures indexed { OnOk result (IsIndexed places.new.map (paths list.new.items)) }
    ensures longer { OnOk result (length list.old.items ≤ length list.new.items) }
{
    while let Some(place) = todo.pop() {
        match try_step(language, alloc, list, places, place, &mut todo)? {
            Progress::Twice => return Ok(Progress::Twice),
            Progress::Moved | Progress::Stuck => {}
        }
    }
    Ok(Progress::Moved)
}

/// Runs the revision at this place, and those that it forks, each as far as it goes.
fn run_from<L: Language>(
    language: &L,
    alloc: Global,
    list: &mut Vec<RevisionRow<L::State>>,
    places: &mut PlaceTable,
    place: usize,
) -> Result<Progress, AllocError>
    requires within { place < length list.old.items }
    requires distinct { IsDistinct (paths list.old.items) }
    requires indexed { IsIndexed places.old.map (paths list.old.items) }
    requires reached { IsWithin (L.rules language.now) (Live (globe list.old.items)) }
    ensures progress { IfOk result (λ p. Tries (L.rules language.now) place p list.old list.new) }
    ensures distinct { OnOk result (IsDistinct (paths list.new.items)) }
    ensures indexed { OnOk result (IsIndexed places.new.map (paths list.new.items)) }
    ensures longer { OnOk result (length list.old.items ≤ length list.new.items) }
{
    let mut todo = Vec::new(alloc);
    match try_step(language, alloc, list, places, place, &mut todo)? {
        Progress::Moved => run_these(language, alloc, list, places, todo),
        Progress::Stuck => Ok(Progress::Stuck),
        Progress::Twice => Ok(Progress::Twice),
    }
}

/// Runs each revision in turn as far as it goes.
fn run_each<L: Language>(
    language: &L,
    alloc: Global,
    list: &mut Vec<RevisionRow<L::State>>,
    places: &mut PlaceTable,
) -> Result<Progress, AllocError>
    requires distinct { IsDistinct (paths list.old.items) }
    requires indexed { IsIndexed places.old.map (paths list.old.items) }
    requires reached { IsWithin (L.rules language.now) (Live (globe list.old.items)) }
    ensures progress { IfOk result (λ p. TriesEach (L.rules language.now) p list.old list.new) }
    ensures distinct { OnOk result (IsDistinct (paths list.new.items)) }
    ensures indexed { OnOk result (IsIndexed places.new.map (paths list.new.items)) }
{
    let mut moved = false;
    for place in 0..list.len() {
        let progress = run_from(language, alloc, list, places, place)?;
        match progress {
            Progress::Twice => return Ok(Progress::Twice),
            Progress::Moved | Progress::Stuck => {}
        }
        moved = has_moved(moved, progress);
    }
    Ok(if moved {
        Progress::Moved
    } else {
        Progress::Stuck
    })
}

/// Whether something has moved, now or before.
fn has_moved(before: bool, progress: Progress) -> bool
    ensures { result ≡ moved_by before progress }
{
    match progress {
        Progress::Moved => true,
        Progress::Stuck | Progress::Twice => before,
    }
}

/// The end of a complete run from `main`, which is the end of every complete run. `main` holds no
/// handle and is within the limit. Want of memory is the one error.
pub fn run<L: Language>(
    language: &L,
    alloc: Global,
    main: L::State,
) -> Result<GlobalState<L::State>, AllocError>
    requires { IsFirst (L.rules language.now) main }
    ensures { IfOk result (λ s. IsEnd (machine_of (L.rules language.now)) main (global_of s)) }
{
    let RevisionRows {
        mut list,
        mut places,
    } = match start(language, alloc, main)? {
        GlobalState::Live(live) => live,
        GlobalState::Twice => return Ok(GlobalState::Twice),
    };
    loop {
        match run_each(language, alloc, &mut list, &mut places)? {
            Progress::Moved => {}
            Progress::Stuck => return Ok(GlobalState::Live(RevisionRows { list, places })),
            Progress::Twice => return Ok(GlobalState::Twice),
        }
    }
}
