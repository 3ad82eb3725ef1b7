//! Legs that record leaf revisions.

ghost use Rattle.std.specs.Prelude.{◌≡◌, ◌<◌, ◌^◌, ℕ, IfOk, OnOk, Some, length, true};
ghost use Rattle.fun_run.specs.Merging.{AreMergesOf};
ghost use Rattle.block_run.specs.Area.{count};
ghost use Rattle.code_machine.specs.Local.{Local};
ghost use Rattle.code_world.specs.declared.noted.NotedLeg.{NotedLeg as DefinedLeg};
ghost use Rattle.code_world.specs.Answers.{LegAnswers};
ghost use Rattle.code_world.specs.Beginnings.{FreshAt};
ghost use Rattle.code_world.specs.Tables.{IsWorld};
ghost use Rattle.code_machine_laws.specs.Reached.{IsReached};
ghost use Rattle.revision_machine.specs.Numbered.{Entries, Listing, World as DefinedWorld};
ghost use Rattle.rev_vm.specs.Starts.{run_under};
ghost use Rattle.version_map.specs.Deltas.{locations};
ghost use Rattle.rev_record.specs.Told.{IsBlank};
ghost use Rattle.world_runs.specs.KeptByLegs.{KeepsOn};
ghost use Rattle.rev_record.specs.Legs.{HasKept, IsFrom, IsRecorded, WasNoted};
ghost use Rattle.rev_record.specs.Legs.{is_leaf as defined_leaf};

use crate::{LeafEntry, blank, make_entry};
use code_world::{FreshStart, LegAnswer, NotedLeg, World, fresh, leg, leg_noting};
use leg_run::{CodeSetting, ReadMarks};
use std::alloc::{AllocError, Global};
use version_map::MergeBy;
use world_runs::Legs;

/// A way of making legs that keeps an entry of each leaf revision.
#[derive(Drop)]
pub(crate) struct Recorder {
    pub(crate) entries: Vec<LeafEntry>,
}

/// Whether a leg has ended its revision by itself, and not by a join.
fn is_leaf(made: NotedLeg) -> bool
    ensures { result ≡ defined_leaf made.answer made.meeting }
{
    match made.answer {
        LegAnswer::Ended | LegAnswer::Trapped => match made.meeting {
            None => true,
            Some(_) => false,
        },
        LegAnswer::Forked { .. }
        | LegAnswer::Joined { .. }
        | LegAnswer::Waits { .. }
        | LegAnswer::Twice
        | LegAnswer::NoSuch
        | LegAnswer::Over => false,
    }
}

/// Notes of nothing, before the leg of a revision that begins so.
fn blank_for(
    alloc: Global,
    setting: &CodeSetting,
    start: &FreshStart,
) -> Result<ReadMarks, AllocError>
    requires inputs { length setting.now.inputs.items < 2 ^ 32 }
    requires locations { length start.now.base.items < 2 ^ 32 }
    ensures blank { IfOk result (λ n. IsBlank n) }
    ensures locations { IfOk result (λ n. locations n.locations ≡ length start.now.base.items) }
    ensures positions { IfOk result (λ n. locations n.inputs ≡ length setting.now.inputs.items) }
{
    let many = start.base.len() as u32;
    let noted = blank(alloc, setting, many)?;
    Ok(noted)
}

/// Keeps an entry of a leaf revision, in the world after its leg.
fn keep_entry(
    alloc: Global,
    setting: &CodeSetting,
    world: &World,
    revision: u32,
    start: &FreshStart,
    noted: &ReadMarks,
    entries: &mut Vec<LeafEntry>,
) -> Result<(), AllocError>
    requires { (w : Entries (Local ℕ)) × (made : DefinedLeg) × (fuel : ℕ)
        × IsFrom (run_under setting.now) fuel (Listing w)
        × WasNoted (run_under setting.now) w revision start.now made noted.now world.now
        × (defined_leaf made.answer made.meeting ≡ true) }
    ensures { (w : Entries (Local ℕ)) (made : DefinedLeg) (fuel : ℕ)
        → (from : IsFrom (run_under setting.now) fuel (Listing w))
        → WasNoted (run_under setting.now) w revision start.now made noted.now world.now
        → defined_leaf made.answer made.meeting ≡ true → OnOk result
        (HasKept (run_under setting.now) fuel w revision entries.old.items entries.new.items from) }
{
    match world.end_of(revision) {
        Some(end) => {
            let births = world.births();
            let entry = make_entry(alloc, setting, births, revision, start, noted, end)?;
            entries.push(entry)?;
            Ok(())
        },
        None => unreachable!(),
    }
}

/// Keeps an entry of a revision whose first leg came out so, if it is a leaf.
fn keep_leaf(
    alloc: Global,
    setting: &CodeSetting,
    world: &World,
    revision: u32,
    made: NotedLeg,
    start: &FreshStart,
    noted: &ReadMarks,
    entries: &mut Vec<LeafEntry>,
) -> Result<(), AllocError>
    requires { (w : Entries (Local ℕ)) × (fuel : ℕ)
        × IsFrom (run_under setting.now) fuel (Listing w)
        × WasNoted (run_under setting.now) w revision start.now made noted.now world.now }
    ensures { (w : Entries (Local ℕ)) (fuel : ℕ)
        → IsRecorded (run_under setting.now) fuel (Listing w) entries.old.items
        → WasNoted (run_under setting.now) w revision start.now made noted.now world.now
        → OnOk result (KeepsOn (λ u. IsRecorded (run_under setting.now) fuel u entries.new.items)
        (run_under setting.now) (Listing w) revision made.answer) }
{
    if is_leaf(made) {
        keep_entry(alloc, setting, world, revision, start, noted, entries)?;
    }
    Ok(())
}

/// The leg of a fresh revision, which is kept if it is a leaf.
fn record_leg<M: MergeBy>(
    alloc: Global,
    setting: &CodeSetting,
    merges: &mut M,
    world: World,
    revision: u32,
    start: &FreshStart,
    entries: &mut Vec<LeafEntry>,
) -> Result<(World, LegAnswer), AllocError>
    requires reached { (w : DefinedWorld (Local ℕ)) × IsReached (run_under setting.now) w
        × IsWorld (run_under setting.now) world w
        × (fuel : ℕ) × IsRecorded (run_under setting.now) fuel w entries.old.items
        × FreshAt (run_under setting.now) world w revision (Some start.now) }
    requires size { M.size merges.old ≡ count setting.now.code.vars }
    requires merges { AreMergesOf (run_under setting.now) (M.merges merges.old) }
    ensures answer { (w : DefinedWorld (Local ℕ)) → IsReached (run_under setting.now) w
        → IsWorld (run_under setting.now) world w
        → IfOk result (λ r. LegAnswers (run_under setting.now) w revision r.1 r.0) }
    ensures kept { (w : DefinedWorld (Local ℕ)) → IsReached (run_under setting.now) w
        → IsWorld (run_under setting.now) world w
        → (fuel : ℕ) → IsRecorded (run_under setting.now) fuel w entries.old.items
        → FreshAt (run_under setting.now) world w revision (Some start.now) → IfOk result (λ r.
        KeepsOn (λ u. IsRecorded (run_under setting.now) fuel u entries.new.items)
        (run_under setting.now) w revision r.1) }
    ensures size { M.size merges.new ≡ M.size merges.old }
    ensures same { M.merges merges.new ≡ M.merges merges.old }
{
    let mut noted = match blank_for(alloc, setting, start) {
        Ok(noted) => noted,
        Err(error) => {
            world.give_up();
            return Err(error);
        },
    };
    let (next, made) = leg_noting(alloc, setting, merges, world, revision, &mut noted)?;
    match keep_leaf(
        alloc, setting, &next, revision, made, start, &noted, entries,
    ) {
        Ok(()) => Ok((next, made.answer)),
        Err(error) => {
            next.give_up();
            Err(error)
        },
    }
}

impl Legs for Recorder {
    ghost use Rattle.std.specs.Prelude.{ℕ};
    ghost use Rattle.rev_record.specs.Legs.{IsRecorded};

    type Fault = AllocError;

    // With how much fuel the run began.
    ghost Told = { ℕ };

    ghost keeps = { λ r fuel g w v. IsRecorded g fuel w r.entries.items };

    ghost stops = { λ r fuel g f. Unit {0} };

    fn leg<M: MergeBy>(
        &mut self,
        alloc: Global,
        setting: &CodeSetting,
        merges: &mut M,
        world: World,
        revision: u32,
    ) -> Result<(World, LegAnswer), AllocError> {
        let begun = match fresh(alloc, setting, &world, revision) {
            Ok(begun) => begun,
            Err(error) => {
                world.give_up();
                return Err(error);
            },
        };
        match begun {
            None => {
                let made = leg(alloc, setting, merges, world, revision)?;
                Ok(made)
            },
            Some(start) => {
                let entries = &mut self.entries;
                let made = record_leg(alloc, setting, merges, world, revision, &start, entries)?;
                Ok(made)
            },
        }
    }

    fn out_of_memory(&self, error: AllocError) -> AllocError {
        error
    }
}
