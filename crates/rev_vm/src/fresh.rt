//! Revisions before their first instruction, and with what they began.

ghost use Rattle.std.specs.Prelude.{◌≡◌, ◌≤◌, ◌+◌, ◌==◌, ℕ, Some, length, take, drop};
ghost use Rattle.std.specs.Prelude.{option_copied, slice_get};
ghost use Rattle.rev_code.specs.declared.code.CodeBlock.{CodeBlock};
ghost use Rattle.rev_code.specs.Step.{params};
ghost use Rattle.rev_code.specs.State.{State};
ghost use Rattle.block_run.specs.Agreement.{AreWords};
ghost use Rattle.code_machine.specs.Local.{CodeRun};
ghost use Rattle.code_memos.specs.Leaf.{Fresh, IsFresh};
ghost use Rattle.rev_vm.specs.Starts.{run_under};
ghost use Rattle.rev_vm.specs.Values.{StandsFor, runner_delta, runner_snapshot};

use crate::runner::{Runner, Stage};
use fun_run::params_of;
use leg_run::{CodeSetting, Run};
use version_map::{Delta, Snapshot};

/// As many words as this from the first of the locals on.
fn first_words(run: &Run, count: usize) -> &[u64]
    requires { run.now.registers.base + count ≤ length run.now.words.items }
    ensures { result.now ≡ take count (drop run.now.registers.base run.now.words.items) }
{
    let base = run.registers.base;
    &run.words.as_slice()[base..base + count]
}

/// As many words as the block of a revision has parameters, from the first of its locals on.
fn first_args<'a>(setting: &CodeSetting, run: &'a Run) -> &'a [u64]
    requires block { (b : CodeBlock)
        × (slice_get setting.now.code.blocks run.now.registers.block ≡ Some b) }
    requires inside { (b : CodeBlock)
        → slice_get setting.now.code.blocks run.now.registers.block ≡ Some b
        → run.now.registers.base + length (params b) ≤ length run.now.words.items }
    ensures { (b : CodeBlock)
        → slice_get setting.now.code.blocks run.now.registers.block ≡ Some b
        → result.now ≡ take (length (params b)) (drop run.now.registers.base run.now.words.items) }
{
    let block = setting.block(run.registers.block);
    first_words(run, params_of(block))
}

impl<P: Snapshot> Runner<P> {
    /// Whether it has listed no fork and no join. In a world that a schedule reaches it stands
    /// before its first instruction then.
    pub fn is_fresh(&self) -> bool
        ensures { (g : CodeRun) (c : State ℕ) → StandsFor g self.now c
            → result ≡ (length c.listed == 0) }
    {
        match &self.stage {
            Stage::Begun(revision) => revision.run.meetings.as_slice().is_empty(),
            Stage::Born(_) => true,
        }
    }

    /// The block that it runs: at first the one with which it was started.
    pub fn block(&self) -> u16
        ensures { (g : CodeRun) (c : State ℕ) → StandsFor g self.now c → result ≡ c.block }
    {
        match &self.stage {
            Stage::Begun(revision) => revision.run.registers.block,
            Stage::Born(beginning) => beginning.block,
        }
    }

    /// The arguments with which it was started, where it stands before its first instruction.
    pub fn args(&self, setting: &CodeSetting) -> &[u64]
        requires { (c : State ℕ) × (f : Fresh ℕ) × StandsFor (run_under setting.now) self.now c
            × IsFresh setting.now.code f c }
        ensures { (c : State ℕ) (f : Fresh ℕ) → StandsFor (run_under setting.now) self.now c
            → IsFresh setting.now.code f c → AreWords f.args result.now }
    {
        match &self.stage {
            Stage::Begun(revision) => first_args(setting, &revision.run),
            Stage::Born(beginning) => beginning.args.as_slice(),
        }
    }

    /// Its snapshot.
    pub fn snapshot(&self) -> &P
        ensures { result.now ≡ runner_snapshot self.now }
    {
        match &self.stage {
            Stage::Begun(revision) => &revision.memory.snapshot,
            Stage::Born(beginning) => &beginning.snapshot,
        }
    }

    /// What lies over its snapshot, if it has begun its first leg. Before that nothing does.
    pub fn delta(&self) -> Option<&Delta>
        ensures { option_copied result ≡ runner_delta self.now }
    {
        match &self.stage {
            Stage::Begun(revision) => Some(&revision.memory.delta),
            Stage::Born(_) => None,
        }
    }
}
