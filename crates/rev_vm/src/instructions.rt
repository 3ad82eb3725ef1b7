//! The instructions of a leg, without and with notes of what they read.

ghost use Rattle.std.specs.Prelude.{◌≡◌, ◌<◌, ◌^◌, length, IfOk};
ghost use Rattle.version_map.specs.Deltas.{at, locations};
ghost use Rattle.version_map.specs.Overlay.{under};
ghost use Rattle.block_run.specs.Area.{count};
ghost use Rattle.code_machine_laws.specs.LegReads.{leg_reads};
ghost use Rattle.leg_run.specs.Ends.{LegEnds};
ghost use Rattle.leg_run.specs.Noting.{HasMarked, marks_of};
ghost use Rattle.leg_run.specs.Standing.{IsStanding, state_of};
ghost use Rattle.rev_vm.specs.Starts.{run_under};

use leg_run::{CodeSetting, LegEnd, Notes, ReadMarks, RunningRevision, run};
use std::alloc::{AllocError, Global};
use version_map::Snapshot;

/// Does the instructions of a leg up to its event, and notes nothing. The error is want of memory,
/// after which nothing is said of where the revision stands.
pub(crate) fn run_plain<P: Snapshot>(
    setting: &CodeSetting,
    revision: &mut RunningRevision<P>,
) -> Result<LegEnd, AllocError>
    requires size { P.size revision.old.memory.snapshot ≡ count setting.now.code.vars }
    requires stands { IsStanding setting.now.code setting.now.inputs.items setting.now.share
        revision.old.run (under revision.old.memory.delta (P.base revision.old.memory.snapshot))
        (at revision.old.memory.first.roots) }
    ensures leg { IfOk result (λ e.
        LegEnds setting.now.code setting.now.inputs.items setting.now.share
        (state_of setting.now.code revision.old.run
        (under revision.old.memory.delta (P.base revision.old.memory.snapshot))
        (at revision.old.memory.first.roots)) e revision.new.run
        (under revision.new.memory.delta (P.base revision.new.memory.snapshot))
        (at revision.new.memory.first.roots)) }
    ensures size { P.size revision.new.memory.snapshot ≡ P.size revision.old.memory.snapshot }
    ensures group { P.group revision.new.memory.snapshot ≡ P.group revision.old.memory.snapshot }
{
    let mut notes = Notes::Off;
    run::<P, false>(setting, revision, &mut notes)
}

/// Does as `run_plain` does, and notes what the leg reads. The notes move into the run and back, and
/// nothing of them is copied.
pub(crate) fn run_noting<P: Snapshot>(
    alloc: Global,
    setting: &CodeSetting,
    revision: &mut RunningRevision<P>,
    noted: &mut ReadMarks,
) -> Result<LegEnd, AllocError>
    requires size { P.size revision.old.memory.snapshot ≡ count setting.now.code.vars }
    requires stands { IsStanding setting.now.code setting.now.inputs.items setting.now.share
        revision.old.run (under revision.old.memory.delta (P.base revision.old.memory.snapshot))
        (at revision.old.memory.first.roots) }
    requires locations { locations noted.old.locations ≡ count setting.now.code.vars }
    requires few { length setting.now.inputs.items < 2 ^ 32 }
    requires positions { locations noted.old.inputs ≡ length setting.now.inputs.items }
    ensures leg { IfOk result (λ e.
        LegEnds setting.now.code setting.now.inputs.items setting.now.share
        (state_of setting.now.code revision.old.run
        (under revision.old.memory.delta (P.base revision.old.memory.snapshot))
        (at revision.old.memory.first.roots)) e revision.new.run
        (under revision.new.memory.delta (P.base revision.new.memory.snapshot))
        (at revision.new.memory.first.roots)) }
    ensures noted { IfOk result (λ _. HasMarked noted.old noted.new
        (marks_of (leg_reads (run_under setting.now) (state_of setting.now.code revision.old.run
        (under revision.old.memory.delta (P.base revision.old.memory.snapshot))
        (at revision.old.memory.first.roots))))) }
    ensures size { P.size revision.new.memory.snapshot ≡ P.size revision.old.memory.snapshot }
    ensures group { P.group revision.new.memory.snapshot ≡ P.group revision.old.memory.snapshot }
{
    let mut notes = Notes::going_on(alloc, noted)?;
    let end = run::<P, true>(setting, revision, &mut notes);
    notes.give_back(noted);
    end
}
