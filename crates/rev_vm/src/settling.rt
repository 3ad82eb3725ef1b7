//! What a joiner takes over of a revision that is done.

ghost use Rattle.std.specs.Prelude.{◌≡◌, ◌<◌, ◌+◌, ◌++◌, ◌^◌, ℕ};
ghost use Rattle.std.specs.Prelude.{true, None, All, IfOk, IfErr, length, map};
ghost use Rattle.rev_num.specs.declared.outcome.Cause.TheVariants as cause;
ghost use Rattle.rev_code.specs.State.{State};
ghost use Rattle.version_map.specs.declared.end.Finish.TheVariants as finish;
ghost use Rattle.version_map.specs.declared.snapshot.Collapsed.{Collapsed};
ghost use Rattle.version_map.specs.Collapsing.{HasCollapsed};
ghost use Rattle.version_map.specs.Composing.{composed, entries};
ghost use Rattle.version_map.specs.Deltas.{at, locations};
ghost use Rattle.version_map.specs.Overlay.{under, Agree};
ghost use Rattle.block_run.specs.Area.{count};
ghost use Rattle.block_run.specs.Remembering.{Kept};
ghost use Rattle.code_machine.specs.Local.{CodeRun, End, end_of, at_work};
ghost use Rattle.code_machine.specs.Joining.{join_in};
ghost use Rattle.fun_run.specs.Merging.{AreMergesOf};
ghost use Rattle.rev_vm.specs.declared.settling.Settled.TheVariants as settled;
ghost use Rattle.rev_vm.specs.Meaning.{IsEnd, IsPast, IsPopped};
ghost use Rattle.rev_vm.specs.Meaning.{IsReady, IsTakenOver};
ghost use Rattle.rev_vm.specs.States.{is_by_join};
ghost use Rattle.rev_vm.specs.Values.{HasClaimed, StandsFor};
ghost use Rattle.rev_vm.specs.Values.{joiner_group, runner_group, runner_snapshot};
ghost use Rattle.rev_vm.specs.Writes.{HasWritten};
ghost use Rattle.rev_vm.specs.NewWords.{IsMergedTo};

use crate::end::{Broken, Stopped, break_off, stop_in_room};
use crate::join::{AtJoin, Claimed, tell};
use crate::memory::{read_all, write_all};
use crate::runner::{Runner, Stage};
use block_run::Memory;
use leg_run::{Run, RunningRevision};
use rev_num::Cause;
use std::alloc::{AllocError, Global};
use version_map::{
    CodeTrap, Delta, EndValue, Finish, MergeBy, MergeTrap, Snapshot, collapse_all, compose,
};

/// What becomes of a joiner.
pub enum Settled<P: Snapshot> {
    Run(Runner<P>),
    /// A merge faulted.
    Trap(Stopped<P>),
}

/// New words, or the first fault of a merge.
pub(crate) enum Merged {
    Words(Vec<u64>),
    Fault(MergeTrap),
}

/// Collapses a joiner's snapshot until the answer is Kept or Base.
fn collapse<P: Snapshot>(snapshot: &mut P, into: &mut Delta)
    requires { locations into.old ≡ P.size snapshot.old }
    ensures collapsed { HasCollapsed P.answered snapshot.new }
    ensures size { P.size snapshot.new ≡ P.size snapshot.old }
    ensures group { P.group snapshot.new ≡ P.group snapshot.old }
    ensures locations { locations into.new ≡ locations into.old }
    ensures base { Agree (P.size snapshot.old) (under into.new (P.base snapshot.new))
        (under into.old (P.base snapshot.old)) }
{
    let _answer = collapse_all(snapshot, into);
}

/// The new words of the locations that the joinee wrote.
fn merge_words<P: Snapshot, M: MergeBy>(
    alloc: Global,
    memory: &mut Memory<P>,
    end: &EndValue,
    merges: &mut M,
) -> Result<Merged, AllocError>
    requires memory { All (λ w. w.location < P.size memory.old.snapshot) end.now.written }
    requires merges { All (λ w. w.location < M.size merges.old) end.now.written }
    ensures merged { IfOk result (λ m. IsMergedTo (composed (M.merges merges.old)
        (map (λ w. under memory.old.delta (P.base memory.old.snapshot) w.location)
        end.now.written) (entries end.now.written)) m) }
    ensures kept { Kept (P.size memory.old.snapshot)
        (under memory.old.delta (P.base memory.old.snapshot))
        (under memory.new.delta (P.base memory.new.snapshot))
        (at memory.old.first.roots) (at memory.new.first.roots) }
    ensures size { P.size memory.new.snapshot ≡ P.size memory.old.snapshot }
    ensures group { P.group memory.new.snapshot ≡ P.group memory.old.snapshot }
    ensures answered { (c : Collapsed) → P.answered memory.old.snapshot c
        → P.answered memory.new.snapshot c }
    ensures merges_size { M.size merges.new ≡ M.size merges.old }
    ensures merges_same { M.merges merges.new ≡ M.merges merges.old }
{
    let mains = read_all(alloc, memory, end.written.as_slice())?;
    let mut values = vec![in alloc; 0; mains.len()]?;
    match compose(mains.as_slice(), end, merges, values.as_mut_slice()) {
        Ok(()) => Ok(Merged::Words(values)),
        Err(fault) => Ok(Merged::Fault(fault)),
    }
}

/// Goes on without the word on top.
fn pop(run: &mut Run)
    requires { IsReady run.old }
    ensures { IsPopped run.old run.new }
{
    run.registers.top -= 1;
    run.registers.at += 1;
}

/// Goes on behind a join of a revision that is done, which a TryJoin tells.
fn go_past(run: &mut Run, is_try: bool)
    requires { IsReady run.old }
    ensures { IsPast is_try run.old run.new }
{
    if is_try { tell(run, 1) } else { pop(run) }
}

/// More text behind a text.
fn append(text: &mut Vec<u8>, more: Vec<u8>) -> Result<(), AllocError>
    ensures { IfOk result (λ _. text.new.items ≡ text.old.items ++ more.items) }
{
    if text.is_empty() {
        *text = more;
        return Ok(());
    }
    text.extend_from_slice(more.as_slice())
}

/// The trap of a merge that faulted.
fn fault_at(trap: MergeTrap, line: u32) -> Finish
    ensures { result ≡ finish.Trapped (record {
      cause = cause.Merge trap.location trap.fault;
      line = line;
      origin = None;
    }) }
{
    Finish::Trapped(CodeTrap {
        cause: Cause::Merge {
            location: trap.location,
            fault: trap.fault,
        },
        line,
        origin: None,
    })
}

/// The joiner with what the joined revision left.
fn take_over<P: Snapshot>(
    mut revision: Box<RunningRevision<P>>,
    is_try: bool,
    end: EndValue,
    values: Vec<u64>,
) -> Result<Box<RunningRevision<P>>, Broken<P>>
    requires ready { IsReady revision.value.run }
    requires fuel { revision.value.run.registers.fuel + end.fuel < 2 ^ 64 }
    requires within { All (λ w. w.location < P.size revision.value.memory.snapshot) end.written }
    requires many { length values.items ≡ length end.written }
    ensures taken { IfOk result
        (λ r. IsTakenOver is_try end.fuel end.text revision.value.run r.value.run) }
    ensures wrote { IfOk result (λ r. HasWritten (P.size revision.value.memory.snapshot)
        end.written values.items
        (under revision.value.memory.delta (P.base revision.value.memory.snapshot))
        (at revision.value.memory.first.roots)
        (under r.value.memory.delta (P.base r.value.memory.snapshot))
        (at r.value.memory.first.roots)) }
    ensures size { IfOk result (λ r. P.size r.value.memory.snapshot
        ≡ P.size revision.value.memory.snapshot) }
    ensures group { IfOk result (λ r. P.group r.value.memory.snapshot
        ≡ P.group revision.value.memory.snapshot) }
    ensures answered { IfOk result (λ r. (c : Collapsed)
        → P.answered revision.value.memory.snapshot c
        → P.answered r.value.memory.snapshot c) }
    ensures broken_answered { IfErr result (λ b. (c : Collapsed)
        → P.answered revision.value.memory.snapshot c → P.answered b.snapshot c) }
    ensures broken { IfErr result (λ b. P.group b.snapshot
        ≡ P.group revision.value.memory.snapshot) }
{
    let EndValue {
        written,
        text,
        fuel,
        finish,
    } = end;
    let inside = &mut *revision;
    write_all(&mut inside.memory, written.as_slice(), values.as_slice());
    go_past(&mut inside.run, is_try);
    inside.run.registers.fuel += fuel;
    match append(&mut inside.run.text, text.into_vec()) {
        Ok(()) => Ok(revision),
        Err(_) => Err(break_off(revision)),
    }
}

/// The joiner of a revision that is done, with that revision's writes, text and fuel; or the
/// joiner's trap, where a merge faults. The joiner's snapshot is collapsed until the answer is Kept
/// or Base, and only read after that. The error is want of memory.
pub fn settle<P: Snapshot, M: MergeBy>(
    alloc: Global,
    claimed: Claimed<P>,
    merges: &mut M,
) -> Result<Settled<P>, Broken<P>>
    requires { M.size merges.old ≡ P.size claimed.at.revision.value.memory.snapshot }
    ensures settled { (g : CodeRun) (c : State ℕ) (j : End ℕ)
        → HasClaimed g claimed c j → AreMergesOf g (M.merges merges.old)
        → IfOk result (λ s. elim s [
          | settled.Run r ↦ (c' : State ℕ)
              × (join_in g c claimed.at.is_try claimed.at.on j j.phase ≡ at_work c')
              × StandsFor g r c'
          | settled.Trap t ↦ IsEnd g
              (end_of (join_in g c claimed.at.is_try claimed.at.on j j.phase)) t.end
        ]) }
    ensures by_join { IfOk result (λ s. elim s [
      | settled.Run r ↦ Unit {0}
      | settled.Trap t ↦ is_by_join t.end.finish ≡ true
    ]) }
    ensures group { IfOk result (λ s. elim s [
      | settled.Run r ↦ runner_group r ≡ joiner_group claimed.at
      | settled.Trap t ↦ P.group t.snapshot ≡ joiner_group claimed.at
    ]) }
    ensures collapsed { IfOk result (λ s. elim s [
      | settled.Run r ↦ HasCollapsed P.answered (runner_snapshot r)
      | settled.Trap t ↦ HasCollapsed P.answered t.snapshot
    ]) }
    ensures broken_collapsed { IfErr result (λ b. HasCollapsed P.answered b.snapshot) }
    ensures broken { IfErr result
        (λ b. P.group b.snapshot ≡ joiner_group claimed.at) }
    ensures merges_size { M.size merges.new ≡ M.size merges.old }
    ensures merges_same { M.merges merges.new ≡ M.merges merges.old }
{
    let Claimed { at, end } = claimed;
    let AtJoin {
        mut revision,
        is_try,
        on,
        room,
    } = at;
    let inside = &mut *revision;
    collapse(&mut inside.memory.snapshot, &mut inside.memory.delta);
    match merge_words(alloc, &mut inside.memory, &end, merges) {
        Err(_) => Err(break_off(revision)),
        Ok(Merged::Fault(trap)) => {
            let finish = fault_at(trap, revision.run.registers.line);
            Ok(Settled::Trap(stop_in_room(revision, room, finish)))
        },
        Ok(Merged::Words(values)) => match take_over(revision, is_try, end, values) {
            Ok(revision) => Ok(Settled::Run(Runner {
                stage: Stage::Begun(revision),
            })),
            Err(broken) => Err(broken),
        },
    }
}
