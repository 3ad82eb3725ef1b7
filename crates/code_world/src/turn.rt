//! Legs of the revisions of a table.

ghost use Rattle.std.specs.Prelude.{◌≡◌, ◌<◌, ◌^◌, ℕ, IfOk, Some, length};
ghost use Rattle.rev_code.specs.State.{State};
ghost use Rattle.rev_vm.specs.Meaning.{AreMergesOf};
ghost use Rattle.block_run.specs.Area.{count};
ghost use Rattle.code_machine.specs.Local.{CodeRun, Local};
ghost use Rattle.revision_machine.specs.Numbered.{Entries, at_number};
ghost use Rattle.rev_vm.specs.Starts.{run_under};
ghost use Rattle.code_world.specs.declared.slot.WorldSlot.TheVariants as slot;
ghost use Rattle.code_world.specs.Slots.{StandsAtJoin, WholeJoin};
ghost use Rattle.version_map.specs.Deltas.{locations};
ghost use Rattle.code_world.specs.Answers.{Answers};
ghost use Rattle.code_world.specs.Between.{HasRead, HasReadOf, IsBetween};
ghost use Rattle.code_world.specs.Meetings.{HasNoted};
ghost use Rattle.code_world.specs.Touches.{Touches, TouchesJoining};
ghost use Rattle.code_world.specs.Turns.{IsGood, StandsOn, Settles, behind, ends_with};

use crate::advance::{Came, advance, advance_noting, meet};
use crate::answer::LegAnswer;
use crate::noted::{NotedLeg, noted_end, noted_fork, noted_join};
use crate::slot::WorldSlot;
use crate::table::{Stage, Table};
use leg_run::{CodeSetting, ReadMarks};
use std::alloc::{AllocError, Global};
use version_map::{Finish, MergeBy};

/// The answer of a leg that ends so.
pub(crate) fn answer_of(finish: Finish) -> LegAnswer
    ensures { result ≡ ends_with finish }
{
    match finish {
        Finish::Done => LegAnswer::Ended,
        Finish::Trapped(_) => LegAnswer::Trapped,
    }
}

/// The answer of a joiner behind its join of this revision.
fn answer_behind(slot: &WorldSlot, on: u32) -> LegAnswer
    ensures { result ≡ behind slot.now on }
{
    match slot {
        WorldSlot::Running(_) => LegAnswer::Joined { on },
        _ => LegAnswer::Trapped,
    }
}

impl Table {
    /// The line of the join at which a revision stands.
    fn join_line(&self, number: usize) -> u32
        requires { (a : WholeJoin) × (at_number self.now.slots.items number
            ≡ Some (slot.Standing a)) }
        ensures { (g : CodeRun) (a : WholeJoin) (c : State ℕ)
            → at_number self.now.slots.items number
            ≡ Some (slot.Standing a) → StandsAtJoin g a c → result ≡ c.line }
    {
        match self.slots.get(number) {
            Some(WorldSlot::Standing(at)) => at.line(),
            _ => unreachable!(),
        }
    }

    /// The leg of a joiner at its join of a revision that has ended.
    fn settle<M: MergeBy>(
        &mut self,
        alloc: Global,
        merges: &mut M,
        number: u32,
        on: u32,
    ) -> Result<LegAnswer, AllocError>
        requires { (g : CodeRun) × (w : Entries (Local ℕ)) × IsGood g self.old w
            × Settles self.old number on × (M.size merges.old ≡ count g.code.vars) }
        ensures answer { (g : CodeRun) (w : Entries (Local ℕ)) → IsGood g self.old w
            → AreMergesOf g (M.merges merges.old)
            → IfOk result (λ a. Answers g w number a self.new) }
        ensures touches { IfOk result (λ a. TouchesJoining self.old number a self.new) }
        ensures size { M.size merges.new ≡ M.size merges.old }
        ensures same { M.merges merges.new ≡ M.merges merges.old }
    {
        let end = self.join_end(alloc, on as usize)?;
        let at = self.take_joiner(number as usize);
        let slot = meet(alloc, at, end, merges, &mut self.spares)?;
        let answer = answer_behind(&slot, on);
        self.put(number as usize, slot);
        Ok(answer)
    }

    /// The leg of a joiner at its join of this revision.
    fn join<M: MergeBy>(
        &mut self,
        alloc: Global,
        merges: &mut M,
        number: u32,
        on: u32,
    ) -> Result<LegAnswer, AllocError>
        requires { (g : CodeRun) × (w : Entries (Local ℕ)) × IsGood g self.old w
            × StandsOn self.old number on × (M.size merges.old ≡ count g.code.vars) }
        ensures answer { (g : CodeRun) (w : Entries (Local ℕ)) → IsGood g self.old w
            → AreMergesOf g (M.merges merges.old)
            → IfOk result (λ a. Answers g w number a self.new) }
        ensures touches { IfOk result (λ a. TouchesJoining self.old number a self.new) }
        ensures size { M.size merges.new ≡ M.size merges.old }
        ensures same { M.merges merges.new ≡ M.merges merges.old }
    {
        match self.stage(on as usize) {
            Stage::NoSuch => unreachable!(),
            Stage::Running => Ok(LegAnswer::Waits { on }),
            Stage::Standing { .. } => Ok(LegAnswer::Waits { on }),
            Stage::Ended => self.settle(alloc, merges, number, on),
            Stage::Joined => Ok(LegAnswer::Twice),
        }
    }

    /// What comes of the instructions of a leg of a running revision, which was taken out of the
    /// table: a fork and a join are made, and an end is kept.
    fn come<M: MergeBy>(
        &mut self,
        alloc: Global,
        merges: &mut M,
        number: u32,
        child: u32,
        came: Came,
    ) -> Result<NotedLeg, AllocError>
        requires { (g : CodeRun) × (t : Table) × (w : Entries (Local ℕ))
            × IsBetween g t w number self.old child came × (M.size merges.old ≡ count g.code.vars) }
        ensures answer { (g : CodeRun) (t : Table) (w : Entries (Local ℕ))
            → IsBetween g t w number self.old child came → AreMergesOf g (M.merges merges.old)
            → IfOk result (λ a. Answers g w number a.answer self.new) }
        ensures noted { (g : CodeRun) (t : Table) (w : Entries (Local ℕ))
            → IsBetween g t w number self.old child came
            → IfOk result (λ a. HasNoted g w number a.answer a.meeting) }
        ensures touches { (g : CodeRun) (t : Table) (w : Entries (Local ℕ))
            → IsBetween g t w number self.old child came
            → IfOk result (λ a. Touches t number a.answer self.new) }
        ensures size { M.size merges.new ≡ M.size merges.old }
        ensures same { M.merges merges.new ≡ M.merges merges.old }
    {
        match came {
            Came::Forked(forker, kid, line) => {
                self.bear(number, forker, kid)?;
                Ok(noted_fork(child, line))
            },
            Came::Standing(at) => {
                let on = at.on();
                let line = at.line();
                self.put(number as usize, WorldSlot::Standing(at));
                let answer = self.join(alloc, merges, number, on)?;
                Ok(noted_join(answer, on, line))
            },
            Came::Ended(end) => {
                let answer = answer_of(end.finish);
                self.put(number as usize, WorldSlot::Ended(end));
                Ok(noted_end(answer))
            },
        }
    }

    /// The leg of a running revision.
    fn run<M: MergeBy>(
        &mut self,
        alloc: Global,
        setting: &CodeSetting,
        merges: &mut M,
        number: u32,
    ) -> Result<NotedLeg, AllocError>
        requires runs { (w : Entries (Local ℕ)) × IsGood (run_under setting.now) self.old w }
        requires size { M.size merges.old ≡ count setting.now.code.vars }
        requires merges { AreMergesOf (run_under setting.now) (M.merges merges.old) }
        requires running { (r : _) × (at_number self.old.slots.items number
            ≡ Some (slot.Running r)) }
        ensures answer { (w : Entries (Local ℕ)) → IsGood (run_under setting.now) self.old w
            → IfOk result (λ a. Answers (run_under setting.now) w number a.answer self.new) }
        ensures noted { (w : Entries (Local ℕ)) → IsGood (run_under setting.now) self.old w
            → IfOk result (λ a. HasNoted (run_under setting.now) w number a.answer a.meeting) }
        ensures touches { IfOk result (λ a. Touches self.old number a.answer self.new) }
        ensures size { M.size merges.new ≡ M.size merges.old }
        ensures same { M.merges merges.new ≡ M.merges merges.old }
    {
        let child = self.slots.len() as u32;
        let runner = self.take_runner(number as usize);
        let came = advance(alloc, setting, runner, child, &mut self.spares)?;
        self.come(alloc, merges, number, child, came)
    }

    /// As `run`, with notes of what the leg reads.
    fn run_noting<M: MergeBy>(
        &mut self,
        alloc: Global,
        setting: &CodeSetting,
        merges: &mut M,
        number: u32,
        noted: &mut ReadMarks,
    ) -> Result<NotedLeg, AllocError>
        requires runs { (w : Entries (Local ℕ)) × IsGood (run_under setting.now) self.old w }
        requires size { M.size merges.old ≡ count setting.now.code.vars }
        requires merges { AreMergesOf (run_under setting.now) (M.merges merges.old) }
        requires running { (r : _) × (at_number self.old.slots.items number
            ≡ Some (slot.Running r)) }
        requires locations { locations noted.old.locations ≡ count setting.now.code.vars }
        requires few { length setting.now.inputs.items < 2 ^ 32 }
        requires positions { locations noted.old.inputs ≡ length setting.now.inputs.items }
        ensures answer { (w : Entries (Local ℕ)) → IsGood (run_under setting.now) self.old w
            → IfOk result (λ a. Answers (run_under setting.now) w number a.answer self.new) }
        ensures noted { (w : Entries (Local ℕ)) → IsGood (run_under setting.now) self.old w
            → IfOk result (λ a. HasNoted (run_under setting.now) w number a.answer a.meeting) }
        ensures read { (w : Entries (Local ℕ)) → IsGood (run_under setting.now) self.old w
            → IfOk result (λ _. HasRead (run_under setting.now) w number noted.old noted.new) }
        ensures touches { IfOk result (λ a. Touches self.old number a.answer self.new) }
        ensures size { M.size merges.new ≡ M.size merges.old }
        ensures same { M.merges merges.new ≡ M.merges merges.old }
    {
        let child = self.slots.len() as u32;
        let runner = self.take_runner(number as usize);
        let came = advance_noting(alloc, setting, runner, child, &mut self.spares, noted)?;
        self.come(alloc, merges, number, child, came)
    }

    /// The leg of the revision of this number.
    pub(crate) fn leg<M: MergeBy>(
        &mut self,
        alloc: Global,
        setting: &CodeSetting,
        merges: &mut M,
        number: u32,
    ) -> Result<NotedLeg, AllocError>
        requires good { (w : Entries (Local ℕ)) × IsGood (run_under setting.now) self.old w }
        requires size { M.size merges.old ≡ count setting.now.code.vars }
        requires merges { AreMergesOf (run_under setting.now) (M.merges merges.old) }
        ensures answer { (w : Entries (Local ℕ)) → IsGood (run_under setting.now) self.old w
            → IfOk result (λ a. Answers (run_under setting.now) w number a.answer self.new) }
        ensures noted { (w : Entries (Local ℕ)) → IsGood (run_under setting.now) self.old w
            → IfOk result (λ a. HasNoted (run_under setting.now) w number a.answer a.meeting) }
        ensures touches { IfOk result (λ a. Touches self.old number a.answer self.new) }
        ensures size { M.size merges.new ≡ M.size merges.old }
        ensures same { M.merges merges.new ≡ M.merges merges.old }
    {
        match self.stage(number as usize) {
            Stage::NoSuch => Ok(noted_end(LegAnswer::NoSuch)),
            Stage::Running => self.run(alloc, setting, merges, number),
            Stage::Standing { on } => {
                let line = self.join_line(number as usize);
                let answer = self.join(alloc, merges, number, on)?;
                Ok(noted_join(answer, on, line))
            },
            Stage::Ended => Ok(noted_end(LegAnswer::Over)),
            Stage::Joined => Ok(noted_end(LegAnswer::Over)),
        }
    }

    /// As `leg`, with notes of what the leg reads.
    pub(crate) fn leg_noting<M: MergeBy>(
        &mut self,
        alloc: Global,
        setting: &CodeSetting,
        merges: &mut M,
        number: u32,
        noted: &mut ReadMarks,
    ) -> Result<NotedLeg, AllocError>
        requires good { (w : Entries (Local ℕ)) × IsGood (run_under setting.now) self.old w }
        requires size { M.size merges.old ≡ count setting.now.code.vars }
        requires merges { AreMergesOf (run_under setting.now) (M.merges merges.old) }
        requires locations { locations noted.old.locations ≡ count setting.now.code.vars }
        requires few { length setting.now.inputs.items < 2 ^ 32 }
        requires positions { locations noted.old.inputs ≡ length setting.now.inputs.items }
        ensures answer { (w : Entries (Local ℕ)) → IsGood (run_under setting.now) self.old w
            → IfOk result (λ a. Answers (run_under setting.now) w number a.answer self.new) }
        ensures noted { (w : Entries (Local ℕ)) → IsGood (run_under setting.now) self.old w
            → IfOk result (λ a. HasNoted (run_under setting.now) w number a.answer a.meeting) }
        ensures read { (w : Entries (Local ℕ)) → IsGood (run_under setting.now) self.old w
            → IfOk result (λ _. HasReadOf (run_under setting.now)
            (at_number self.old.slots.items number) w number noted.old noted.new) }
        ensures touches { IfOk result (λ a. Touches self.old number a.answer self.new) }
        ensures size { M.size merges.new ≡ M.size merges.old }
        ensures same { M.merges merges.new ≡ M.merges merges.old }
    {
        match self.stage(number as usize) {
            Stage::Running => self.run_noting(alloc, setting, merges, number, noted),
            _ => self.leg(alloc, setting, merges, number),
        }
    }
}
