//! Revisions at a Fork, and forkers behind it.

ghost use Rattle.std.specs.Prelude.{◌≡◌, ◌≤◌, ◌<◌, ◌+◌, ◌-◌, ◌^◌, List, Some, None, IfOk, IfErr, IfSome};
ghost use Rattle.std.specs.Prelude.{drop, length, slice_get, take};
ghost use Rattle.std.specs.Option.{ForSome};
ghost use Rattle.rev_code.specs.declared.code.CodeBlock.{CodeBlock};
ghost use Rattle.rev_code.specs.State.{State};
ghost use Rattle.rev_code.specs.Step.{params};
ghost use Rattle.rev_code.specs.Words.{Word};
ghost use Rattle.rev_code.specs.Events as events;
ghost use Rattle.version_map.specs.declared.snapshot.How.TheVariants as how;
ghost use Rattle.version_map.specs.Deltas.{IsEmpty};
ghost use Rattle.code_machine.specs.Local.{CodeRun};
ghost use Rattle.rev_vm.specs.Revisions.{BornAs, ForksAs, StandsAs};
ghost use Rattle.rev_vm.specs.Starts.{IsForker, IsNamed, IsWaiting, run_under};

use crate::beginning::born;
use crate::end::{Broken, break_off};
use crate::runner::{Beginning, Runner, Stage};
use fun_run::params_of;
use leg_run::{CodeSetting, Meeting, Run, RunningRevision};
use std::alloc::{AllocError, Global};
use version_map::{How, Snapshot};

/// A revision at a Fork, and the block that its child runs.
pub struct AtFork<P: Snapshot> {
    pub(crate) revision: Box<RunningRevision<P>>,
    pub(crate) block: u16,
}

/// A forker that memory was wanting for, and its child, where that had its snapshot already.
pub struct BrokenFork<P: Snapshot> {
    pub(crate) forker: Broken<P>,
    pub(crate) child: Option<Broken<P>>,
    ghost together: { ForSome child (λ k. P.group k.snapshot ≡ P.group forker.snapshot) },
}

impl<P: Snapshot> BrokenFork<P> {
    /// Their snapshots, given back.
    pub fn give_up(self) -> (P::Spent, Option<P::Spent>)
        ensures forker { P.spent_group result.0 ≡ P.group self.forker.snapshot }
        ensures child { IfSome result.1
            (λ s. P.spent_group s ≡ P.group self.forker.snapshot) }
    {
        let BrokenFork { forker, child } = self;
        match child {
            Some(child) => (forker.give_up(), Some(child.give_up())),
            None => (forker.give_up(), None),
        }
    }
}

/// A forker behind its Fork, which has yet to be told its child's number. Until then the number 0
/// stands where that number comes, so that no more memory is taken.
pub struct Parent<P: Snapshot> {
    pub(crate) revision: Box<RunningRevision<P>>,
    ghost waits: { IsWaiting revision.value.run },
}

impl<P: Snapshot> Parent<P> {
    ghost use Rattle.rev_vm.specs.Values.{Awaits, StandsFor, parent_group, runner_group};

    /// The forker, which holds its child's number.
    pub fn told(self, number: u32) -> Runner<P>
        ensures state { (g : CodeRun) (c : State _) (args : List (Word _))
            → Awaits g self c args
            → StandsFor g result (events.parent g.share c args number) }
        ensures group { runner_group result ≡ parent_group self }
    {
        let Parent { mut revision } = self;
        name_child(&mut revision.run, number);
        Runner {
            stage: Stage::Begun(revision),
        }
    }

    /// Its snapshot, given back.
    pub fn give_up(self) -> P::Spent
        ensures { P.spent_group result ≡ parent_group self }
    {
        let Parent { revision } = self;
        break_off(revision).give_up()
    }
}

/// Puts the number of the child where 0 stands.
fn name_child(run: &mut Run, number: u32)
    requires { IsWaiting run.old }
    ensures { IsNamed number run.old run.new }
{
    let top = run.registers.top - 1;
    let last = run.meetings.len() - 1;
    let line = run.registers.line;
    let revision = number as u64;
    run.words[top] = revision + 1;
    run.meetings[last] = Meeting::Forked { revision, line };
}

/// The part of a forker's fuel that its child gets.
fn part_of(share: u64, fuel: u64) -> u64
    ensures { result ≡ events.part share fuel }
{
    u64::min(share, fuel / 2)
}

/// As many words as this from the top of a stack.
fn words_on_top(run: &Run, count: usize) -> &[u64]
    requires enough { count ≤ run.now.registers.top }
    requires within { run.now.registers.top ≤ length run.now.words.items }
    ensures { result.now ≡ take count (drop (run.now.registers.top - count) run.now.words.items) }
{
    let top = run.registers.top;
    &run.words.as_slice()[top - count..top]
}

/// Goes on behind a Fork of a child that took so many words and this much fuel.
fn leave_fork(run: &mut Run, taken: usize, part: u64) -> Result<(), AllocError>
    requires taken { taken ≤ run.old.registers.top }
    requires room { run.old.registers.top - taken < length run.old.words.items }
    requires place { run.old.registers.at + 1 < 2 ^ 32 }
    requires part { part ≤ run.old.registers.fuel }
    requires few { run.old.forks ≤ length run.old.meetings.items }
    ensures forker { IfOk result (λ _. IsForker taken part run.old run.new) }
    ensures waits { IfOk result (λ _. IsWaiting run.new) }
{
    let line = run.registers.line;
    let top = run.registers.top - taken;
    run.meetings.push(Meeting::Forked { revision: 0, line })?;
    run.words[top] = 1;
    run.registers.top = top + 1;
    run.registers.at += 1;
    run.registers.fuel -= part;
    run.forks += 1;
    Ok(())
}

/// What the child of a revision at a Fork begins with. The revision goes on behind its Fork.
fn fork_off<P: Snapshot>(
    alloc: Global,
    setting: &CodeSetting,
    block: u16,
    revision: &mut RunningRevision<P>,
) -> Result<(Beginning<P>, How), AllocError>
    requires at { (c : State _) × (args : List (Word _))
        × ForksAs (run_under setting.now) revision.old block c args }
    ensures parent { IfOk result (λ _. (c : State _) (args : List (Word _))
        → ForksAs (run_under setting.now) revision.old block c args
        → StandsAs (run_under setting.now) revision.new
        (events.parent setting.now.share c args 0)) }
    ensures child { IfOk result (λ r. (c : State _) (args : List (Word _))
        → ForksAs (run_under setting.now) revision.old block c args
        → (b : CodeBlock) × (slice_get setting.now.code.blocks block ≡ Some b)
        × BornAs (run_under setting.now) P.base P.size r.0
        (events.child setting.now.share c block b args)) }
    ensures waits { IfOk result (λ _. IsWaiting revision.new.run) }
    ensures how { IfOk result (λ r. P.hows r.1) }
    ensures shared { IfOk result (λ r. r.1 ≡ how.Shared → IsEmpty revision.new.memory.delta) }
    ensures copied { IfOk result (λ r. r.1 ≡ how.Copied
        → revision.new.memory.delta ≡ revision.old.memory.delta) }
    ensures group { P.group revision.new.memory.snapshot ≡ P.group revision.old.memory.snapshot }
    ensures child_group { IfOk result
        (λ r. P.group r.0.snapshot ≡ P.group revision.old.memory.snapshot) }
{
    let b = setting.block(block);
    let count = params_of(b);
    let args = Vec::from_slice(alloc, words_on_top(&revision.run, count))?;
    let fuel = part_of(setting.share(), revision.run.registers.fuel);
    leave_fork(&mut revision.run, count, fuel)?;
    let (snapshot, how) = revision.memory.fork(alloc)?;
    Ok((
        Beginning {
            snapshot,
            block,
            args,
            fuel,
        },
        how,
    ))
}

impl<P: Snapshot> AtFork<P> {
    ghost use Rattle.rev_vm.specs.Values.{Awaits, StandsAtFork, StandsFor};
    ghost use Rattle.rev_vm.specs.Values.{fork_group, parent_group, runner_delta, runner_group};

    /// The forker behind its Fork, its child, and how the child has its words, as the snapshot
    /// answered.
    pub fn fork(
        self,
        alloc: Global,
        setting: &CodeSetting,
    ) -> Result<(Parent<P>, Runner<P>, How), BrokenFork<P>>
        requires at { (c : State _) × (args : List (Word _))
            × StandsAtFork (run_under setting.now) self c args }
        ensures parent { IfOk result (λ r. (c : State _) (args : List (Word _))
            → StandsAtFork (run_under setting.now) self c args
            → Awaits (run_under setting.now) r.0 c args) }
        ensures child { IfOk result (λ r. (c : State _) (args : List (Word _))
            → StandsAtFork (run_under setting.now) self c args
            → (b : CodeBlock) × (slice_get setting.now.code.blocks self.block ≡ Some b)
            × StandsFor (run_under setting.now) r.1 (events.child setting.now.share c self.block b
            args)) }
        ensures how { IfOk result (λ r. P.hows r.2) }
        ensures shared { IfOk result (λ r. r.2 ≡ how.Shared
            → IsEmpty r.0.revision.value.memory.delta) }
        ensures copied { IfOk result (λ r. r.2 ≡ how.Copied
            → r.0.revision.value.memory.delta ≡ self.revision.value.memory.delta) }
        ensures group { IfOk result (λ r. parent_group r.0 ≡ fork_group self) }
        ensures child_group { IfOk result (λ r. runner_group r.1 ≡ fork_group self) }
        ensures tables { IfOk result (λ r. runner_delta r.1 ≡ None) }
        ensures broken { IfErr result
            (λ b. P.group b.forker.snapshot ≡ fork_group self) }
    {
        let AtFork {
            mut revision,
            block,
        } = self;
        match fork_off(alloc, setting, block, &mut *revision) {
            Ok((child, how)) => match born(alloc, child) {
                Ok(child) => Ok((Parent { revision }, child, how)),
                Err(child) => Err(BrokenFork {
                    forker: break_off(revision),
                    child: Some(child),
                }),
            },
            Err(_) => Err(BrokenFork {
                forker: break_off(revision),
                child: None,
            }),
        }
    }

    /// The line charged last.
    pub fn line(&self) -> u32
        ensures { (g : CodeRun) (c : State _) (args : List (Word _))
            → StandsAtFork g self.now c args → result ≡ c.line }
    {
        self.revision.run.registers.line
    }

    /// Its snapshot, given back.
    pub fn give_up(self) -> P::Spent
        ensures { P.spent_group result ≡ fork_group self }
    {
        let AtFork { revision, block } = self;
        break_off(revision).give_up()
    }
}
