//! Legs, from event to event.

ghost use Rattle.std.specs.Prelude.{◌≡◌, ℕ, false, List, Option, IfErr, IfOk, None};
ghost use Rattle.rev_num.specs.declared.outcome.Cause.{Cause};
ghost use Rattle.rev_code.specs.State.{State};
ghost use Rattle.rev_code.specs.Step.{ends, forks, joins, traps};
ghost use Rattle.rev_code.specs.Words.{Word};
ghost use Rattle.version_map.specs.declared.end.Finish.TheVariants as finish;
ghost use Rattle.version_map.specs.Deltas.{at};
ghost use Rattle.version_map.specs.Overlay.{under};
ghost use Rattle.block_run.specs.Remembering.{HasRoom, written_below};
ghost use Rattle.code_machine.specs.Leg.{leg};
ghost use Rattle.code_machine.specs.Local.{CodeRun, done, end_of, has_ended};
ghost use Rattle.rev_vm.specs.declared.leg.Event.TheVariants as event;
ghost use Rattle.rev_vm.specs.Legs.{HasComeTo, IsNoted, trap_of};
ghost use Rattle.rev_vm.specs.Meaning.{IsEnd, IsReady};
ghost use Rattle.rev_vm.specs.Starts.{run_under};
ghost use Rattle.rev_vm.specs.States.{is_by_join};
ghost use Rattle.rev_vm.specs.Values.{StandsAtFork, StandsAtJoin, StandsFor};
ghost use Rattle.rev_vm.specs.Values.{fork_group, joiner_group, runner_group};

use crate::beginning::begun;
use crate::end::{Broken, Stopped, break_off, stop};
use crate::fork::AtFork;
use crate::instructions::run_plain;
use crate::join::AtJoin;
use crate::runner::Runner;
use crate::spares::Spares;
use leg_run::{CodeSetting, LegEnd, Meeting, Run, RunningRevision};
use rev_num::{Cause, Items};
use std::alloc::{AllocError, Global};
use version_map::{CodeTrap, Finish, Snapshot, Written};

/// How a leg ends.
pub enum Event<P: Snapshot> {
    Fork(AtFork<P>),
    Join(AtJoin<P>),
    /// The revision is done.
    End(Stopped<P>),
    /// It has trapped by itself.
    Trap(Stopped<P>),
}

/// Lists a join.
fn note_join(run: &mut Run, on: u64) -> Result<(), AllocError>
    ensures { IfOk result (λ _. IsNoted on run.old run.new) }
{
    let line = run.registers.line;
    run.meetings.push(Meeting::Joined { revision: on, line })?;
    Ok(())
}

/// Lists a join, and gives room for a list of what the joiner has written so far.
fn come_to_join<P: Snapshot>(
    alloc: Global,
    revision: &mut RunningRevision<P>,
    on: u64,
) -> Result<Vec<Written>, AllocError>
    ensures noted { IfOk result (λ _. IsNoted on revision.old.run revision.new.run) }
    ensures memory { revision.new.memory ≡ revision.old.memory }
    ensures room { IfOk result (λ r. HasRoom r (at revision.new.memory.first.roots)
        (P.size revision.new.memory.snapshot)) }
{
    note_join(&mut revision.run, on)?;
    revision.memory.room_for_written(alloc)
}

/// The revision as one at a join. A joined revision of a number of 2^32 or more, which `told` tells
/// no forker, counts as want of memory.
fn at_join<P: Snapshot>(
    alloc: Global,
    mut revision: Box<RunningRevision<P>>,
    is_try: bool,
    on: u64,
) -> Result<AtJoin<P>, Broken<P>>
    requires { IsReady revision.value.run }
    ensures tries { IfOk result (λ a. a.is_try ≡ is_try) }
    ensures on { IfOk result (λ a. a.on ≡ on) }
    ensures noted { IfOk result (λ a. IsNoted on revision.value.run a.revision.value.run) }
    ensures memory { IfOk result (λ a. a.revision.value.memory ≡ revision.value.memory) }
    ensures group { IfOk result (λ a. P.group a.revision.value.memory.snapshot
        ≡ P.group revision.value.memory.snapshot) }
    ensures broken { IfErr result (λ b. P.group b.snapshot
        ≡ P.group revision.value.memory.snapshot) }
{
    if on > u32::MAX as u64 {
        return Err(break_off(revision));
    }
    match come_to_join(alloc, &mut *revision, on) {
        Ok(room) => Ok(AtJoin {
            revision,
            is_try,
            on: on as u32,
            room,
        }),
        Err(_) => Err(break_off(revision)),
    }
}

/// The revision as one that has ended, with what it has written.
fn stop_at<P: Snapshot>(
    alloc: Global,
    mut revision: Box<RunningRevision<P>>,
    finish: Finish,
) -> Result<Stopped<P>, Broken<P>>
    ensures written { IfOk result (λ s. s.end.written ≡ written_below
        (under revision.value.memory.delta (P.base revision.value.memory.snapshot))
        (at revision.value.memory.first.roots) (P.size revision.value.memory.snapshot)) }
    ensures text { IfOk result (λ s. s.end.text ≡ revision.value.run.text.items) }
    ensures fuel { IfOk result (λ s. s.end.fuel ≡ revision.value.run.registers.fuel) }
    ensures finish { IfOk result (λ s. s.end.finish ≡ finish) }
    ensures group { IfOk result (λ s. P.group s.snapshot ≡ P.group revision.value.memory.snapshot) }
    ensures broken { IfErr result (λ b. P.group b.snapshot
        ≡ P.group revision.value.memory.snapshot) }
{
    match revision.memory.written(alloc) {
        Ok(written) => Ok(stop(revision, Items::from_vec(written), finish)),
        Err(_) => Err(break_off(revision)),
    }
}

/// How a revision ends that traps by itself.
fn own_trap(cause: Cause, line: u32) -> Finish
    ensures { result ≡ finish.Trapped (record { cause = cause; line = line; origin = None }) }
{
    Finish::Trapped(CodeTrap {
        cause,
        line,
        origin: None,
    })
}

/// The event to which a leg came that has ended like this. The error is want of memory, as which a
/// join of a number of 2^32 or more counts.
pub(crate) fn event_of<P: Snapshot>(
    alloc: Global,
    revision: Box<RunningRevision<P>>,
    end: LegEnd,
) -> Result<Event<P>, Broken<P>>
    requires come { (g : CodeRun) × (c : State ℕ) × HasComeTo g c end revision.value.run
        revision.value.memory.delta (P.base revision.value.memory.snapshot)
        revision.value.memory.first.roots }
    ensures event { (g : CodeRun) (c : State ℕ) → HasComeTo g c end revision.value.run
        revision.value.memory.delta (P.base revision.value.memory.snapshot)
        revision.value.memory.first.roots
        → IfOk result (λ e. elim e [
          | event.Fork a ↦ (d : State ℕ) × (args : List (Word ℕ))
              × (leg g c ≡ forks d a.block args) × StandsAtFork g a d args
          | event.Join a ↦ (d : State ℕ) × (leg g c ≡ joins d a.is_try a.on) × StandsAtJoin g a d
          | event.End s ↦ (d : State ℕ) × (w : Option (Word ℕ)) × (leg g c ≡ ends d w)
              × IsEnd g (end_of (has_ended d done)) s.end
          | event.Trap s ↦ (d : State ℕ) × (e : Cause) × (leg g c ≡ traps d e)
              × IsEnd g (end_of (has_ended d (trap_of d e))) s.end
        ]) }
    ensures group { IfOk result (λ e. elim e [
      | event.Fork a ↦ fork_group a ≡ P.group revision.value.memory.snapshot
      | event.Join a ↦ joiner_group a ≡ P.group revision.value.memory.snapshot
      | event.End s ↦ P.group s.snapshot ≡ P.group revision.value.memory.snapshot
      | event.Trap s ↦ P.group s.snapshot ≡ P.group revision.value.memory.snapshot
    ]) }
    ensures own { IfOk result (λ e. elim e [
      | event.Fork a ↦ Unit {0}
      | event.Join a ↦ Unit {0}
      | event.End s ↦ is_by_join s.end.finish ≡ false
      | event.Trap s ↦ is_by_join s.end.finish ≡ false
    ]) }
    ensures broken { IfErr result
        (λ b. P.group b.snapshot ≡ P.group revision.value.memory.snapshot) }
{
    match end {
        LegEnd::Fork(block) => Ok(Event::Fork(AtFork { revision, block })),
        LegEnd::Join { is_try, on } => {
            let joiner = at_join(alloc, revision, is_try, on)?;
            Ok(Event::Join(joiner))
        },
        LegEnd::End => {
            let ended = stop_at(alloc, revision, Finish::Done)?;
            Ok(Event::End(ended))
        },
        LegEnd::Trap(cause) => {
            let finish = own_trap(cause, revision.run.registers.line);
            let stopped = stop_at(alloc, revision, finish)?;
            Ok(Event::Trap(stopped))
        },
    }
}

/// Does the instructions of a leg up to its event. The first leg of a revision makes its first
/// frame, and its tables of locations where there are no spare ones. No join makes the trap that a
/// leg has by itself. The error is want of memory, as which a join of a number of 2^32 or more
/// counts.
pub fn run_leg<P: Snapshot>(
    alloc: Global,
    runner: Runner<P>,
    setting: &CodeSetting,
    spares: &mut Spares,
) -> Result<Event<P>, Broken<P>>
    requires stands { (c : State ℕ) × StandsFor (run_under setting.now) runner c }
    ensures event { (c : State ℕ) → StandsFor (run_under setting.now) runner c
        → IfOk result (λ e. elim e [
          | event.Fork a ↦ (d : State ℕ) × (args : List (Word ℕ))
              × (leg (run_under setting.now) c ≡ forks d a.block args)
              × StandsAtFork (run_under setting.now) a d args
          | event.Join a ↦ (d : State ℕ)
              × (leg (run_under setting.now) c ≡ joins d a.is_try a.on)
              × StandsAtJoin (run_under setting.now) a d
          | event.End s ↦ (d : State ℕ) × (w : Option (Word ℕ))
              × (leg (run_under setting.now) c ≡ ends d w)
              × IsEnd (run_under setting.now) (end_of (has_ended d done)) s.end
          | event.Trap s ↦ (d : State ℕ) × (e : Cause)
              × (leg (run_under setting.now) c ≡ traps d e)
              × IsEnd (run_under setting.now) (end_of (has_ended d (trap_of d e))) s.end
        ]) }
    ensures group { IfOk result (λ e. elim e [
      | event.Fork a ↦ fork_group a ≡ runner_group runner
      | event.Join a ↦ joiner_group a ≡ runner_group runner
      | event.End s ↦ P.group s.snapshot ≡ runner_group runner
      | event.Trap s ↦ P.group s.snapshot ≡ runner_group runner
    ]) }
    ensures own { IfOk result (λ e. elim e [
      | event.Fork a ↦ Unit {0}
      | event.Join a ↦ Unit {0}
      | event.End s ↦ is_by_join s.end.finish ≡ false
      | event.Trap s ↦ is_by_join s.end.finish ≡ false
    ]) }
    ensures broken { IfErr result
        (λ b. P.group b.snapshot ≡ runner_group runner) }
{
    let mut revision = begun(alloc, setting, runner, spares)?;
    match run_plain(setting, &mut *revision) {
        Err(_) => Err(break_off(revision)),
        Ok(end) => event_of(alloc, revision, end),
    }
}
