//! Revisions between two events.

ghost use Rattle.std.specs.Prelude.{◌≡◌, List, IfErr, IfOk, None};
ghost use Rattle.rev_code.specs.declared.code.CodeBlock.{CodeBlock};
ghost use Rattle.rev_code.specs.Events as events;
ghost use Rattle.rev_code.specs.State.{Location, State};
ghost use Rattle.rev_code.specs.Words.{Word};
ghost use Rattle.block_run.specs.Area.{count};
ghost use Rattle.code_machine.specs.Local.{CodeRun};
ghost use Rattle.rev_vm.specs.Starts.{IsBase, IsCalled, run_under};
ghost use Rattle.rev_vm.specs.Values.{StandsFor, runner_delta, runner_group};

use crate::beginning::{born, let_beginning_go};
use crate::end::{Broken, break_off};
use leg_run::{CodeSetting, RunningRevision};
use std::alloc::Global;
use version_map::Snapshot;

/// What a revision has before its first leg: the words of its arguments are a copy of its own, and
/// its tables of locations and its first frame are not made yet.
pub(crate) struct Beginning<P: Snapshot> {
    pub(crate) snapshot: P,
    pub(crate) block: u16,
    pub(crate) args: Vec<u64>,
    pub(crate) fuel: u64,
}

/// Where a revision stands that runs.
pub(crate) enum Stage<P: Snapshot> {
    /// Behind its first leg, or in it.
    Begun(Box<RunningRevision<P>>),
    /// Before its first leg.
    Born(Box<Beginning<P>>),
}

/// A revision between two events, or before its first.
pub struct Runner<P: Snapshot> {
    pub(crate) stage: Stage<P>,
}

impl<P: Snapshot> Runner<P> {
    /// A revision before its first leg, which will run this block with these arguments: a procedure
    /// or `main`, over this snapshot. The error is want of memory, and hands the snapshot back.
    pub fn start(
        alloc: Global,
        setting: &CodeSetting,
        block: u16,
        args: &[u64],
        snapshot: P,
        fuel: u64,
    ) -> Result<Runner<P>, P>
        requires size { P.size snapshot ≡ count setting.now.code.vars }
        requires called { (b : CodeBlock) × (xs : List (Word _))
            × IsCalled (run_under setting.now) block b xs args.now }
        ensures state { (b : CodeBlock) (xs : List (Word _)) (ls : List (Location _))
            → IsCalled (run_under setting.now) block b xs args.now
            → IsBase (run_under setting.now) (P.base snapshot) ls
            → IfOk result (λ r. StandsFor (run_under setting.now) r
            (events.start block b xs ls fuel)) }
        ensures group { IfOk result (λ r. runner_group r ≡ P.group snapshot) }
        ensures tables { IfOk result (λ r. runner_delta r ≡ None) }
        ensures err { IfErr result (λ s. s ≡ snapshot) }
    {
        let Ok(args) = Vec::from_slice(alloc, args) else {
            return Err(snapshot);
        };
        let beginning = Beginning {
            snapshot,
            block,
            args,
            fuel,
        };
        match born(alloc, beginning) {
            Ok(runner) => Ok(runner),
            Err(broken) => {
                let Broken { snapshot } = broken;
                Err(snapshot)
            },
        }
    }

    /// The fuel that is left.
    pub fn fuel(&self) -> u64
        ensures { (g : CodeRun) (c : State _) → StandsFor g self.now c → result ≡ c.fuel }
    {
        match &self.stage {
            Stage::Begun(revision) => revision.run.registers.fuel,
            Stage::Born(beginning) => beginning.fuel,
        }
    }

    /// What the revision has printed so far.
    pub fn text(&self) -> &[u8]
        ensures { (g : CodeRun) (c : State _) → StandsFor g self.now c → result.now ≡ c.text }
    {
        match &self.stage {
            Stage::Begun(revision) => revision.run.text.as_slice(),
            Stage::Born(_) => &[],
        }
    }

    /// Its snapshot, given back.
    pub fn give_up(self) -> P::Spent
        ensures { P.spent_group result ≡ runner_group self }
    {
        let Runner { stage } = self;
        match stage {
            Stage::Begun(revision) => break_off(revision).give_up(),
            Stage::Born(beginning) => let_beginning_go(Box::into_inner(beginning)).give_up(),
        }
    }
}
