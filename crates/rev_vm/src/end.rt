//! Revisions that have ended, or for which memory was wanting.

ghost use Rattle.std.specs.Prelude.{◌≡◌, IfErr, IfOk};
ghost use Rattle.version_map.specs.declared.snapshot.Collapsed.{Collapsed};
ghost use Rattle.version_map.specs.Ascending.{IsAscending};
ghost use Rattle.version_map.specs.Deltas.{at};
ghost use Rattle.version_map.specs.Overlay.{under};
ghost use Rattle.block_run.specs.Remembering.{HasRoom, written_below};

use crate::spares::Spares;
use block_run::Memory;
use leg_run::RunningRevision;
use rev_num::Items;
use std::alloc::Global;
use std::marker::Model;
use version_map::{EndValue, Finish, Snapshot, Written};

/// A revision that is done or has trapped. It stays in its box until it is retired, so that it is
/// small to move. Contracts see its snapshot and what it leaves.
pub struct Stopped<P: Snapshot> {
    pub(crate) revision: Box<RunningRevision<P>>,
    pub(crate) written: Items<Written>,
    pub(crate) finish: Finish,
    ghost ascending: { IsAscending written },
}

impl<P: Snapshot> Model for Stopped<P> {
    ghost use Rattle.rev_vm.specs.Stopping.{StoppedValue};

    ghost Value = { StoppedValue P };

    ghost view = { λ s. record {
      snapshot = s.revision.value.memory.snapshot;
      end = record {
        written = s.written;
        text = s.revision.value.run.text.items;
        fuel = s.revision.value.run.registers.fuel;
        finish = s.finish;
        ascending = s.ascending;
      };
    } };

    ghost invariant = { λ _. Unit {0} };
}

/// What the revision leaves, and its snapshot, given back. Its tables of locations become spare
/// ones, where there is room for them. It takes no memory.
pub fn retire<P: Snapshot>(stopped: Stopped<P>, spares: &mut Spares) -> (EndValue, P::Spent)
    ensures end { result.0 ≡ stopped.end }
    ensures group { P.spent_group result.1 ≡ P.group stopped.snapshot }
{
    let Stopped {
        revision,
        written,
        finish,
    } = stopped;
    let RunningRevision { memory, run } = Box::into_inner(revision);
    let Memory {
        delta,
        first,
        snapshot,
    } = memory;
    spares.keep(delta, first);
    let end = EndValue {
        written,
        text: Items::from_vec(run.text),
        fuel: run.registers.fuel,
        finish,
    };
    (end, snapshot.release())
}

/// A revision that memory was wanting for.
pub struct Broken<P: Snapshot> {
    pub(crate) snapshot: P,
}

impl<P: Snapshot> Broken<P> {
    /// Its snapshot, given back.
    pub fn give_up(self) -> P::Spent
        ensures { P.spent_group result ≡ P.group self.snapshot }
    {
        let Broken { snapshot } = self;
        snapshot.release()
    }
}

/// The revision in a box of its own, where it stays for its whole life. The error is want of
/// memory.
pub(crate) fn in_box<P: Snapshot>(
    alloc: Global,
    revision: RunningRevision<P>,
) -> Result<Box<RunningRevision<P>>, Broken<P>>
    ensures ok { IfOk result (λ b. b.value ≡ revision) }
    ensures broken { IfErr result (λ b. b.snapshot ≡ revision.memory.snapshot) }
{
    match Box::new(alloc, revision) {
        Ok(boxed) => Ok(boxed),
        Err(failed) => Err(let_go(failed.value)),
    }
}

/// The revision as one that has ended.
pub(crate) fn stop<P: Snapshot>(
    revision: Box<RunningRevision<P>>,
    written: Items<Written>,
    finish: Finish,
) -> Stopped<P>
    requires { IsAscending written }
    ensures written { result.end.written ≡ written }
    ensures text { result.end.text ≡ revision.value.run.text.items }
    ensures fuel { result.end.fuel ≡ revision.value.run.registers.fuel }
    ensures finish { result.end.finish ≡ finish }
    ensures snapshot { result.snapshot ≡ revision.value.memory.snapshot }
{
    Stopped {
        revision,
        written,
        finish,
    }
}

/// The revision as one that has ended, with what it has written, listed where there is room for it.
pub(crate) fn stop_in_room<P: Snapshot>(
    mut revision: Box<RunningRevision<P>>,
    room: Vec<Written>,
    finish: Finish,
) -> Stopped<P>
    requires { HasRoom room (at revision.value.memory.first.roots)
        (P.size revision.value.memory.snapshot) }
    ensures written { result.end.written ≡ written_below
        (under revision.value.memory.delta (P.base revision.value.memory.snapshot))
        (at revision.value.memory.first.roots) (P.size revision.value.memory.snapshot) }
    ensures text { result.end.text ≡ revision.value.run.text.items }
    ensures fuel { result.end.fuel ≡ revision.value.run.registers.fuel }
    ensures finish { result.end.finish ≡ finish }
    ensures group { P.group result.snapshot ≡ P.group revision.value.memory.snapshot }
    ensures answered { (c : Collapsed) → P.answered revision.value.memory.snapshot c
        → P.answered result.snapshot c }
{
    let written = revision.memory.list_written(room);
    stop(revision, Items::from_vec(written), finish)
}

/// The revision without all but its snapshot.
pub(crate) fn break_off<P: Snapshot>(revision: Box<RunningRevision<P>>) -> Broken<P>
    ensures { result.snapshot ≡ revision.value.memory.snapshot }
{
    let_go(Box::into_inner(revision))
}

/// The same of a revision that is in no box.
fn let_go<P: Snapshot>(revision: RunningRevision<P>) -> Broken<P>
    ensures { result.snapshot ≡ revision.memory.snapshot }
{
    let RunningRevision { memory, run } = revision;
    let Memory {
        delta,
        first,
        snapshot,
    } = memory;
    Broken { snapshot }
}
