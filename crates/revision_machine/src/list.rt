//! A step as a change of the list of revisions.

ghost use Rattle.std.specs.Prelude.{◌≡◌, ◌≢◌, ◌<◌, ◌≤◌, length, get_or, IfOk, OnOk, false};
ghost use Rattle.revision_machine.specs.Machine.{Live, Joins, Ended};
ghost use Rattle.revision_machine.specs.Laws.{IsDistinct};
ghost use Rattle.revision_machine.specs.Rules.{AreRoomy, IsWithin};
ghost use Rattle.revision_machine.specs.PathIndex.{IsIndexed};
ghost use Rattle.revision_machine.specs.RevisionList.{paths, globe};
ghost use Rattle.revision_machine.specs.ListStep.{
  StepsAt,
  NextIs,
  JoinsPlace,
  JoinsOther,
  PlacesRoomy,
  AfterJoin,
  meet,
  with_mark,
};

use crate::language::{Language, Next};
use crate::one_step::StepOutcome;
use crate::place_table::PlaceTable;
use crate::state::RevisionRow;
use rev_num::Path;
use std::alloc::{AllocError, Global};

/// Steps the revision at this place.
pub fn step_at<L: Language>(
    language: &L,
    alloc: Global,
    list: &mut Vec<RevisionRow<L::State>>,
    places: &mut PlaceTable,
    i: usize,
) -> Result<StepOutcome, AllocError>
    requires within { i < length list.old.items }
    requires distinct { IsDistinct (paths list.old.items) }
    requires indexed { IsIndexed places.old.map (paths list.old.items) }
    requires reached { IsWithin (L.rules language.now) (Live (globe list.old.items)) }
    ensures step { IfOk result (λ s. StepsAt (L.rules language.now) i s list.old list.new) }
    ensures distinct { OnOk result (IsDistinct (paths list.new.items)) }
    ensures indexed { OnOk result (IsIndexed places.new.map (paths list.new.items)) }
    ensures longer { OnOk result (length list.old.items ≤ length list.new.items) }
{
    if list[i].joined {
        return Ok(StepOutcome::Ended);
    }
    let made = language.forks(&list[i].state);
    let revision = &mut list[i];
    match language.advance(alloc, &mut revision.state, &revision.path)? {
        Next::Moved => Ok(StepOutcome::Moved),
        Next::Ended => Ok(StepOutcome::Ended),
        Next::Forked(state) => {
            let path = revision.path.child(alloc, made)?;
            places.enter(alloc, &path, list.len())?;
            list.push(RevisionRow {
                path,
                state,
                joined: false,
            })?;
            Ok(StepOutcome::Moved)
        }
        Next::Joins(on) => join_at(language, alloc, list, places, i, on),
    }
}

/// Lets the revision at this place join the one at `on`, if that has ended.
fn join_at<L: Language>(
    language: &L,
    alloc: Global,
    list: &mut Vec<RevisionRow<L::State>>,
    places: &PlaceTable,
    i: usize,
    on: Path,
) -> Result<StepOutcome, AllocError>
    requires within { i < length list.old.items }
    requires distinct { IsDistinct (paths list.old.items) }
    requires indexed { IsIndexed places.now.map (paths list.old.items) }
    requires reached { IsWithin (L.rules language.now) (Live (globe list.old.items)) }
    requires plain { (d : _) → (get_or list.old.items i d).joined ≡ false }
    requires joins { NextIs (L.rules language.now) list.old.items i (Joins on) }
    ensures step { IfOk result (λ s. StepsAt (L.rules language.now) i s list.old list.new) }
    ensures distinct { OnOk result (IsDistinct (paths list.new.items)) }
    ensures same { OnOk result (paths list.new.items ≡ paths list.old.items) }
    ensures longer { OnOk result (length list.old.items ≤ length list.new.items) }
{
    let j = match places.find(&on) {
        Some(j) => j,
        None => unreachable!(),
    };
    if list[j].joined {
        return Ok(StepOutcome::Twice);
    }
    if !language.has_ended(&list[j].state, &on) {
        return Ok(StepOutcome::Waits { on });
    }
    settle_at(language, alloc, list.as_mut_slice(), i, j)?;
    Ok(StepOutcome::Moved)
}

/// Lets the revision at one place join the one at another, which gets the mark.
fn settle_at<L: Language>(
    language: &L,
    alloc: Global,
    list: &mut [RevisionRow<L::State>],
    i: usize,
    j: usize,
) -> Result<(), AllocError>
    requires within { i < length list.old }
    requires target { j < length list.old }
    requires apart { i ≢ j }
    requires joins { JoinsPlace (L.rules language.now) list.old i j }
    requires over { NextIs (L.rules language.now) list.old j Ended }
    requires room { PlacesRoomy (L.rules language.now) list.old i j }
    ensures { OnOk result (AfterJoin (L.rules language.now) list.old i j list.new) }
{
    if i < j {
        let (front, back) = list.split_at_mut(j);
        settle_pair(language, alloc, &mut front[i], &mut back[0])
    } else {
        let (front, back) = list.split_at_mut(i);
        settle_pair(language, alloc, &mut back[0], &mut front[j])
    }
}

fn settle_pair<L: Language>(
    language: &L,
    alloc: Global,
    joiner: &mut RevisionRow<L::State>,
    joinee: &mut RevisionRow<L::State>,
) -> Result<(), AllocError>
    requires joins { JoinsOther (L.rules language.now) joiner.old joinee.old }
    requires over { (L.rules language.now).next joinee.old.path joinee.old.state ≡ Ended }
    requires room { AreRoomy (L.rules language.now) joiner.old.state joinee.old.state }
    ensures joiner { OnOk result (joiner.new ≡ meet (L.rules language.now) joiner.old joinee.old) }
    ensures joinee { OnOk result (joinee.new ≡ with_mark joinee.old) }
{
    language.settle(
        alloc,
        &mut joiner.state,
        &joiner.path,
        &joinee.path,
        &joinee.state,
    )?;
    joinee.joined = true;
    Ok(())
}
