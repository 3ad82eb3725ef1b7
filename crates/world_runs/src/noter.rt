//! Legs that are noted.

ghost use Rattle.std.specs.Prelude.{◌≡◌};

use crate::legs::Legs;
use crate::noted::Noted;
use crate::notes::note_leg;
use code_world::{LegAnswer, World, leg_meeting};
use leg_run::CodeSetting;
use std::alloc::{AllocError, Global};
use version_map::MergeBy;

/// A way of making legs that notes what each revision did.
#[derive(Drop)]
pub(crate) struct Noter<'n> {
    notes: &'n mut Vec<Noted>,
}

impl<'n> Noter<'n> {
    /// With these notes of the revisions so far.
    pub(crate) fn new(notes: &'n mut Vec<Noted>) -> Noter<'n>
        ensures same_reference { result.notes.ghost_name ≡ notes.entry.ghost_name }
        ensures now { result.notes.now ≡ notes.old }
    {
        Noter { notes }
    }
}

impl<'n> Legs for Noter<'n> {
    ghost use Rattle.std.specs.Borrow.{MutBor};
    ghost use Rattle.std.specs.Global.{Global};
    ghost use Rattle.std.specs.Prelude.{Vec};
    ghost use Rattle.world_runs.specs.declared.noted.Noted.{Noted};
    ghost use Rattle.world_runs.specs.NotedRuns.{AreNotesIn};

    type Fault = AllocError;

    // Behind which reference the notes stand.
    ghost Told = { MutBor (Vec Noted Global) };

    ghost keeps = { λ l t g w v. AreNotesIn g w t l.notes };

    ghost stops = { λ l t g f. Unit {0} };

    fn leg<M: MergeBy>(
        &mut self,
        alloc: Global,
        setting: &CodeSetting,
        merges: &mut M,
        world: World,
        revision: u32,
    ) -> Result<(World, LegAnswer), AllocError> {
        let (next, made) = leg_meeting(alloc, setting, merges, world, revision)?;
        match note_leg(alloc, self.notes, &next, revision, made) {
            Ok(()) => Ok((next, made.answer)),
            Err(error) => {
                next.give_up();
                Err(error)
            },
        }
    }

    fn out_of_memory(&self, error: AllocError) -> AllocError {
        error
    }
}
