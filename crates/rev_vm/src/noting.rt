//! Legs from event to event, with notes of what they read.

ghost use Rattle.std.specs.Prelude.{◌≡◌, ◌<◌, ◌^◌, ℕ, false, length, List, Option, IfErr, IfOk};
ghost use Rattle.rev_num.specs.declared.outcome.Cause.{Cause};
ghost use Rattle.rev_code.specs.State.{State};
ghost use Rattle.rev_code.specs.Step.{ends, forks, joins, traps};
ghost use Rattle.rev_code.specs.Words.{Word};
ghost use Rattle.version_map.specs.Deltas.{locations};
ghost use Rattle.block_run.specs.Area.{count};
ghost use Rattle.code_machine.specs.Leg.{leg};
ghost use Rattle.code_machine.specs.Local.{done, end_of, has_ended};
ghost use Rattle.code_machine_laws.specs.LegReads.{leg_reads};
ghost use Rattle.leg_run.specs.Noting.{HasMarked, marks_of};
ghost use Rattle.rev_vm.specs.declared.leg.Event.TheVariants as event;
ghost use Rattle.rev_vm.specs.Legs.{trap_of};
ghost use Rattle.rev_vm.specs.Meaning.{IsEnd};
ghost use Rattle.rev_vm.specs.Starts.{run_under};
ghost use Rattle.rev_vm.specs.States.{is_by_join};
ghost use Rattle.rev_vm.specs.Values.{StandsFor, StandsAtFork, StandsAtJoin};
ghost use Rattle.rev_vm.specs.Values.{fork_group, joiner_group, runner_group};

use crate::beginning::begun;
use crate::end::{Broken, break_off};
use crate::instructions::run_noting;
use crate::leg::{Event, event_of};
use crate::runner::Runner;
use crate::spares::Spares;
use leg_run::{CodeSetting, ReadMarks};
use std::alloc::Global;
use version_map::Snapshot;

/// Does as `run_leg` does, and notes what the leg reads of its snapshot and of the input.
pub fn run_leg_noting<P: Snapshot>(
    alloc: Global,
    runner: Runner<P>,
    setting: &CodeSetting,
    spares: &mut Spares,
    noted: &mut ReadMarks,
) -> Result<Event<P>, Broken<P>>
    requires stands { (c : State ℕ) × StandsFor (run_under setting.now) runner c }
    requires locations { locations noted.old.locations ≡ count setting.now.code.vars }
    requires few { length setting.now.inputs.items < 2 ^ 32 }
    requires positions { locations noted.old.inputs ≡ length setting.now.inputs.items }
    ensures event { (c : State ℕ) → StandsFor (run_under setting.now) runner c
        → IfOk result (λ e. elim e [
          | event.Fork a ↦ (d : State ℕ) × (args : List (Word ℕ))
              × (leg (run_under setting.now) c ≡ forks d a.block args)
              × StandsAtFork (run_under setting.now) a d args
          | event.Join a ↦ (d : State ℕ)
              × (leg (run_under setting.now) c ≡ joins d a.is_try a.on)
              × StandsAtJoin (run_under setting.now) a d
          | event.End s ↦ (d : State ℕ) × (w : Option (Word ℕ))
              × (leg (run_under setting.now) c ≡ ends d w)
              × IsEnd (run_under setting.now) (end_of (has_ended d done)) s.end
          | event.Trap s ↦ (d : State ℕ) × (e : Cause)
              × (leg (run_under setting.now) c ≡ traps d e)
              × IsEnd (run_under setting.now) (end_of (has_ended d (trap_of d e))) s.end
        ]) }
    ensures group { IfOk result (λ e. elim e [
      | event.Fork a ↦ fork_group a ≡ runner_group runner
      | event.Join a ↦ joiner_group a ≡ runner_group runner
      | event.End s ↦ P.group s.snapshot ≡ runner_group runner
      | event.Trap s ↦ P.group s.snapshot ≡ runner_group runner
    ]) }
    ensures own { IfOk result (λ e. elim e [
      | event.Fork a ↦ Unit {0}
      | event.Join a ↦ Unit {0}
      | event.End s ↦ is_by_join s.end.finish ≡ false
      | event.Trap s ↦ is_by_join s.end.finish ≡ false
    ]) }
    ensures noted { (c : State ℕ) → StandsFor (run_under setting.now) runner c
        → IfOk result (λ _. HasMarked noted.old noted.new
        (marks_of (leg_reads (run_under setting.now) c))) }
    ensures broken { IfErr result
        (λ b. P.group b.snapshot ≡ runner_group runner) }
{
    let mut revision = begun(alloc, setting, runner, spares)?;
    match run_noting(alloc, setting, &mut *revision, noted) {
        Err(_) => Err(break_off(revision)),
        Ok(end) => event_of(alloc, revision, end),
    }
}
