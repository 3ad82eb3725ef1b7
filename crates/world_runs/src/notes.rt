//! What is noted of a leg.

ghost use Rattle.std.specs.Prelude.{◌≡◌, ◌<◌, ℕ, IfOk, OnOk, length};
ghost use Rattle.code_machine.specs.Local.{CodeRun, Local};
ghost use Rattle.code_world.specs.declared.world.World as rust;
ghost use Rattle.code_world.specs.Answers.{LegAnswers};
ghost use Rattle.revision_machine.specs.Numbered.{World as DefinedWorld};
ghost use Rattle.world_runs.specs.Changes.{HasAdded, HasEnd, HasNoted, IsBorn, IsChanged};
ghost use Rattle.world_runs.specs.Changes.{IsEndIn, IsOverNow};
ghost use Rattle.world_runs.specs.Notes.{NotesOf};

use crate::noted::Noted;
use code_world::{LegAnswer, NotedLeg, World};
use leg_run::Meeting;
use std::alloc::{AllocError, Global};
use version_map::EndValue;

/// Adds a fork or a join to what is noted of the revision of this number, where the leg made one.
fn add_meeting(
    notes: &mut Vec<Noted>,
    number: usize,
    meeting: Option<Meeting>,
) -> Result<(), AllocError>
    requires { number < length notes.old.items }
    ensures { OnOk result
        (IsChanged number (HasAdded meeting) notes.old.items notes.new.items) }
{
    notes[number].add(meeting)?;
    Ok(())
}

/// Notes what the revision of this number left, once it has ended.
fn set_end(notes: &mut Vec<Noted>, number: usize, end: Option<EndValue>)
    requires { number < length notes.old.items }
    ensures { (v : rust.World) → IsEndIn v number end
        → IsChanged number (HasEnd v number) notes.old.items notes.new.items }
{
    notes[number].end_with(end);
}

/// A copy of what the revision of this number left, where it has ended.
fn end_copied(alloc: Global, world: &World, number: u32) -> Result<Option<EndValue>, AllocError>
    ensures { IfOk result (λ o. IsEndIn world.now number o) }
{
    match world.end_of(number) {
        Some(end) => {
            let copy = end.copied(alloc)?;
            Ok(Some(copy))
        },
        None => Ok(None),
    }
}

/// Notes that the revision of this number has ended in this world, with what it left, and its last
/// join, where that ended it.
fn note_end(
    alloc: Global,
    notes: &mut Vec<Noted>,
    world: &World,
    number: u32,
    meeting: Option<Meeting>,
) -> Result<(), AllocError>
    requires { number < length notes.old.items }
    ensures { OnOk result
        (IsOverNow world.now number meeting notes.old.items notes.new.items) }
{
    add_meeting(notes, number as usize, meeting)?;
    let end = end_copied(alloc, world, number)?;
    set_end(notes, number as usize, end);
    Ok(())
}

/// Notes a fork of the revision of this number, and begins the notes of the child, which come last.
fn note_fork(
    alloc: Global,
    notes: &mut Vec<Noted>,
    number: u32,
    meeting: Option<Meeting>,
) -> Result<(), AllocError>
    requires { number < length notes.old.items }
    ensures { OnOk result (IsBorn number meeting notes.old.items notes.new.items) }
{
    add_meeting(notes, number as usize, meeting)?;
    notes.push(Noted::new(alloc))?;
    Ok(())
}

/// Notes a leg of the revision of this number that came out so, in the world after it. Where there
/// was no leg, and where a revision was joined twice, the notes stay. Want of memory is the one error.
pub(crate) fn note_leg(
    alloc: Global,
    notes: &mut Vec<Noted>,
    world: &World,
    number: u32,
    leg: NotedLeg,
) -> Result<(), AllocError>
    requires { (g : CodeRun) × (w : DefinedWorld (Local ℕ))
        × LegAnswers g w number leg.answer world.now × NotesOf g w notes.old.items }
    ensures { OnOk result
        (HasNoted world.now number leg.answer leg.meeting notes.old.items notes.new.items) }
{
    match leg.answer {
        LegAnswer::Forked { child: _child } => {
            note_fork(alloc, notes, number, leg.meeting)?;
            Ok(())
        },
        LegAnswer::Joined { on: _on } => {
            add_meeting(notes, number as usize, leg.meeting)?;
            Ok(())
        },
        LegAnswer::Ended => {
            note_end(alloc, notes, world, number, leg.meeting)?;
            Ok(())
        },
        LegAnswer::Trapped => {
            note_end(alloc, notes, world, number, leg.meeting)?;
            Ok(())
        },
        LegAnswer::Waits { on: _other } => Ok(()),
        LegAnswer::Twice => Ok(()),
        LegAnswer::NoSuch => Ok(()),
        LegAnswer::Over => Ok(()),
    }
}
