//! Revisions before their legs.
ghost use Rattle.std.specs.Prelude.{◌≡◌, IfErr, IfOk};
ghost use Rattle.block_run.specs.Area.{count};
ghost use Rattle.run_revision.specs.Laws.{IsStart};
ghost use Rattle.rev_vm.specs.Opening.{StartsWith};
ghost use Rattle.rev_vm.specs.Starts.{run_under};

use leg_run::CodeSetting;
use rev_vm::{Runner, start_main};
use std::alloc::Global;
use std::marker::Model;
use version_map::Snapshot;

/// A revision before its leg, with what it runs under. Contracts see its state, and what its
/// snapshot belongs to.
pub struct CodeRunner<'a, P: Snapshot> {
    pub(crate) setting: &'a CodeSetting,
    pub(crate) runner: Runner<P>,
}

impl<'a, P: Snapshot> Model for CodeRunner<'a, P> {
    ghost use Rattle.run_revision.specs.CodeState.{state_of};
    ghost use Rattle.run_revision.specs.CodeValues.{RunnerValue};
    ghost use Rattle.code_machine.specs.Local.{at_work};
    ghost use Rattle.rev_vm.specs.Starts.{run_under};
    ghost use Rattle.rev_vm.specs.Values.{StandsFor, runner_state, runner_group};

    ghost Value = { RunnerValue };

    ghost view = { λ r. record {
      state = state_of (run_under r.setting.now)
          (at_work (runner_state (run_under r.setting.now) r.runner));
      group = runner_group r.runner;
    } };

    ghost invariant = { λ r. StandsFor (run_under r.setting.now) r.runner
        (runner_state (run_under r.setting.now) r.runner) };
}

impl<'a, P: Snapshot> CodeRunner<'a, P> {
    /// `main` before its first leg, over a snapshot with the words with which the shared variables
    /// start. The error is want of memory, and hands the snapshot back.
    pub fn start(
        alloc: Global,
        setting: &'a CodeSetting,
        snapshot: P,
        fuel: u64,
    ) -> Result<CodeRunner<'a, P>, P>
        requires size { P.size snapshot ≡ count setting.now.code.vars }
        requires base { StartsWith setting.now.code.vars (P.base snapshot) }
        ensures start { IfOk result (λ r. IsStart (run_under setting.entry.now) fuel r.state) }
        ensures group { IfOk result (λ r. r.group ≡ P.group snapshot) }
        ensures err { IfErr result (λ s. s ≡ snapshot) }
    {
        match start_main(alloc, setting, snapshot, fuel) {
            Ok(runner) => Ok(CodeRunner { setting, runner }),
            Err(snapshot) => Err(snapshot),
        }
    }

    /// What is left of its snapshot, which is given back.
    pub fn give_up(self) -> P::Spent
        ensures { P.spent_group result ≡ self.entry.group }
    {
        let CodeRunner { setting: _, runner } = self;
        runner.give_up()
    }
}
