//! Revisions at a fork, and forkers behind it.

use leg_run::CodeSetting;
use rev_vm::{AtFork, Parent};
use std::marker::Model;
use version_map::Snapshot;

/// A revision at a fork, with what it runs under. Contracts see the state there, the block and the
/// arguments of its child, and what its snapshot belongs to.
pub struct CodeFork<'a, P: Snapshot> {
    pub(crate) setting: &'a CodeSetting,
    pub(crate) at: AtFork<P>,
}

impl<'a, P: Snapshot> Model for CodeFork<'a, P> {
    ghost use Rattle.rev_vm.specs.Starts.{run_under};
    ghost use Rattle.rev_vm.specs.Values.{StandsAtFork, fork_state, fork_group};
    ghost use Rattle.run_revision.specs.Forking.{ForkValue, arguments_at};

    ghost Value = { ForkValue };

    ghost view = { λ f. record {
      run = run_under f.setting.now;
      state = fork_state (run_under f.setting.now) f.at;
      block = f.at.block;
      args = arguments_at (run_under f.setting.now) (fork_state (run_under f.setting.now) f.at);
      group = fork_group f.at;
    } };

    ghost invariant = { λ f. StandsAtFork (run_under f.setting.now) f.at
        (fork_state (run_under f.setting.now) f.at)
        (arguments_at (run_under f.setting.now) (fork_state (run_under f.setting.now) f.at)) };
}

/// A forker that does not know its child's number, with what it runs under. Contracts see its
/// state, where the number is 0, and what its snapshot belongs to.
pub struct CodeParent<'a, P: Snapshot> {
    pub(crate) setting: &'a CodeSetting,
    pub(crate) parent: Parent<P>,
}

impl<'a, P: Snapshot> Model for CodeParent<'a, P> {
    ghost use Rattle.std.specs.Prelude.{List, ℕ};
    ghost use Rattle.rev_code.specs.State.{State};
    ghost use Rattle.rev_code.specs.Words.{Word};
    ghost use Rattle.rev_vm.specs.Starts.{run_under};
    ghost use Rattle.rev_vm.specs.States.{state_at};
    ghost use Rattle.rev_vm.specs.Values.{Awaits, parent_group};
    ghost use Rattle.run_revision.specs.Forking.{ParentValue};

    ghost Value = { ParentValue };

    ghost view = { λ p. record {
      run = run_under p.setting.now;
      state = state_at (run_under p.setting.now) p.parent.revision.value.run
          p.parent.revision.value.memory.delta (P.base p.parent.revision.value.memory.snapshot)
          p.parent.revision.value.memory.first.roots;
      group = parent_group p.parent;
    } };

    ghost invariant = { λ p. ((c : State ℕ) × (args : List (Word ℕ))
        × Awaits (run_under p.setting.now) p.parent c args) };
}
