//! Legs that take over the ends of revisions with a valid entry.

ghost use Rattle.std.specs.Prelude.{◌≡◌, ℕ, IfOk, List, Some};
ghost use Rattle.fun_run.specs.Merging.{AreMergesOf};
ghost use Rattle.block_run.specs.Area.{count};
ghost use Rattle.code_machine.specs.Local.{Local};
ghost use Rattle.code_memos.specs.Leaf.{Known};
ghost use Rattle.code_world.specs.Answers.{LegAnswers};
ghost use Rattle.code_world.specs.Beginnings.{FreshAt};
ghost use Rattle.code_world.specs.Tables.{IsWorld};
ghost use Rattle.code_machine_laws.specs.Reached.{IsReached};
ghost use Rattle.revision_machine.specs.Numbered.{Entries, Listing, World as DefinedWorld};
ghost use Rattle.rev_vm.specs.Starts.{run_under};
ghost use Rattle.world_runs.specs.KeptByLegs.{KeepsOn};
ghost use Rattle.rev_record.specs.Legs.{IsFrom, IsRepeated, IsTaken, StandsFresh};
ghost use Rattle.rev_record.specs.Memos.{HasEntries};

use crate::memo::Memo;
use crate::{end_over, is_valid};
use code_runs::path_of;
use code_world::{FreshStart, LegAnswer, World, adopt, fresh, leg};
use leg_run::CodeSetting;
use std::alloc::{AllocError, Global};
use version_map::{EndValue, MergeBy};
use world_runs::Legs;

/// A way of making legs that takes over the ends of revisions with a valid entry, and counts them.
#[derive(Drop)]
pub(crate) struct Repeater<'m> {
    pub(crate) memo: &'m Memo,
    pub(crate) reused: u64,
}

/// The end of a fresh revision by its entry, if it has one that is valid.
fn known_end(
    alloc: Global,
    setting: &CodeSetting,
    memo: &Memo,
    world: &World,
    revision: u32,
    start: &FreshStart,
) -> Result<Option<EndValue>, AllocError>
    requires { (w : Entries (Local ℕ)) × (fuel : ℕ) × (es : List Known)
        × IsFrom (run_under setting.now) fuel (Listing w)
        × IsWorld (run_under setting.now) world.now (Listing w)
        × HasEntries setting.now.code memo.now es
        × StandsFresh (run_under setting.now) w revision start.now }
    ensures { (w : Entries (Local ℕ)) (fuel : ℕ) (es : List Known)
        → (from : IsFrom (run_under setting.now) fuel (Listing w))
        → IsWorld (run_under setting.now) world.now (Listing w)
        → HasEntries setting.now.code memo.now es
        → StandsFresh (run_under setting.now) w revision start.now
        → IfOk result (λ o. IsTaken (run_under setting.now) fuel es w revision from o) }
{
    let births = world.births();
    let path = path_of(alloc, births, revision as usize)?;
    let place = match memo.place_of(&path) {
        None => return Ok(None),
        Some(place) => place,
    };
    let entry = &memo.entries[place];
    if is_valid(alloc, setting, births, &path, start, entry)? {
        let end = end_over(alloc, births, start, entry)?;
        Ok(Some(end))
    } else {
        Ok(None)
    }
}

/// The leg of a fresh revision, or the end that its valid entry has, which is counted.
fn repeat_leg<M: MergeBy>(
    alloc: Global,
    setting: &CodeSetting,
    merges: &mut M,
    memo: &Memo,
    world: World,
    revision: u32,
    start: &FreshStart,
    reused: &mut u64,
) -> Result<(World, LegAnswer), AllocError>
    requires reached { (w : DefinedWorld (Local ℕ)) × IsReached (run_under setting.now) w
        × IsWorld (run_under setting.now) world w × (fuel : ℕ) × (es : List Known)
        × IsRepeated (run_under setting.now) fuel es w memo.now.entries.items reused.old
        × FreshAt (run_under setting.now) world w revision (Some start.now) }
    requires size { M.size merges.old ≡ count setting.now.code.vars }
    requires merges { AreMergesOf (run_under setting.now) (M.merges merges.old) }
    ensures answer { (w : DefinedWorld (Local ℕ)) → IsReached (run_under setting.now) w
        → IsWorld (run_under setting.now) world w → (fuel : ℕ) (es : List Known)
        → IsRepeated (run_under setting.now) fuel es w memo.now.entries.items reused.old
        → FreshAt (run_under setting.now) world w revision (Some start.now)
        → IfOk result (λ r. LegAnswers (run_under setting.now) w revision r.1 r.0) }
    ensures kept { (w : DefinedWorld (Local ℕ)) → IsReached (run_under setting.now) w
        → IsWorld (run_under setting.now) world w → (fuel : ℕ) (es : List Known)
        → IsRepeated (run_under setting.now) fuel es w memo.now.entries.items reused.old
        → FreshAt (run_under setting.now) world w revision (Some start.now) → IfOk result (λ r.
        KeepsOn
        (λ u. IsRepeated (run_under setting.now) fuel es u memo.now.entries.items reused.new)
        (run_under setting.now) w revision r.1) }
    ensures size { M.size merges.new ≡ M.size merges.old }
    ensures same { M.merges merges.new ≡ M.merges merges.old }
{
    match known_end(alloc, setting, memo, &world, revision, start) {
        Ok(Some(end)) => {
            *reused += 1;
            Ok(adopt(world, revision, end))
        },
        Ok(None) => {
            let made = leg(alloc, setting, merges, world, revision)?;
            Ok(made)
        },
        Err(error) => {
            world.give_up();
            Err(error)
        },
    }
}

impl<'m> Legs for Repeater<'m> {
    ghost use Rattle.std.specs.Prelude.{ℕ, List};
    ghost use Rattle.code_memos.specs.Leaf.{Known};
    ghost use Rattle.rev_record.specs.Legs.{IsRepeated};

    type Fault = AllocError;

    // With how much fuel the run began, and for what the memo stands.
    ghost Told = { ℕ × List Known };

    ghost keeps = { λ r t g w v. IsRepeated g t.0 t.1 w r.memo.now.entries.items r.reused };

    ghost stops = { λ r t g f. Unit {0} };

    fn leg<M: MergeBy>(
        &mut self,
        alloc: Global,
        setting: &CodeSetting,
        merges: &mut M,
        world: World,
        revision: u32,
    ) -> Result<(World, LegAnswer), AllocError> {
        let begun = match fresh(alloc, setting, &world, revision) {
            Ok(begun) => begun,
            Err(error) => {
                world.give_up();
                return Err(error);
            },
        };
        match begun {
            None => {
                let made = leg(alloc, setting, merges, world, revision)?;
                Ok(made)
            },
            Some(start) => {
                let reused = &mut self.reused;
                let memo = self.memo;
                let made = repeat_leg(
                    alloc, setting, merges, memo, world, revision, &start, reused,
                )?;
                Ok(made)
            },
        }
    }

    fn out_of_memory(&self, error: AllocError) -> AllocError {
        error
    }
}
