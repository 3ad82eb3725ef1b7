//! What revisions leave that have ended.
ghost use Rattle.std.specs.Prelude.{◌≡◌};
ghost use Rattle.run_revision.specs.CodeValues.{is_trap};
ghost use Rattle.rev_vm.specs.Meaning.{IsEnd};
ghost use Rattle.run_revision.specs.Values.{made_by_join};

use leg_run::CodeSetting;
use std::marker::Model;
use version_map::{EndValue, Finish};

/// What a revision leaves, with what it ran under. It lies in a box, so that it is small to move.
/// Contracts see its end.
#[derive(Drop)]
pub struct CodeEnd<'a> {
    pub(crate) setting: &'a CodeSetting,
    pub(crate) value: Box<EndValue>,
}

impl<'a> Model for CodeEnd<'a> {
    ghost use Rattle.run_revision.specs.CodeValues.{LeftValue};
    ghost use Rattle.rev_vm.specs.Meaning.{IsEnd};
    ghost use Rattle.rev_vm.specs.Starts.{run_under};
    ghost use Rattle.rev_vm.specs.States.{end_for};

    ghost Value = { LeftValue };

    ghost view = { λ e. record {
      run = run_under e.setting.now;
      left = end_for (run_under e.setting.now) e.value.value;
    } };

    ghost invariant = { λ e. IsEnd (run_under e.setting.now)
        (end_for (run_under e.setting.now) e.value.value) e.value.value };
}

impl<'a> CodeEnd<'a> {
    /// What it is as data: its writes, its text, its fuel and how it ended.
    pub fn value(&self) -> &EndValue
        ensures { IsEnd self.now.run self.now.left result.now }
    {
        &*self.value
    }

    /// The same, apart from what it ran under.
    pub fn into_value(self) -> Box<EndValue>
        ensures { IsEnd self.entry.run self.entry.left result.value }
    {
        self.value
    }

    /// Whether it ended by a trap.
    pub fn is_trapped(&self) -> bool
        ensures { result ≡ is_trap self.now.left.phase }
    {
        match self.value.finish {
            Finish::Done => false,
            Finish::Trapped(_) => true,
        }
    }

    /// Whether a join made its trap.
    pub fn is_by_join(&self) -> bool
        ensures { result ≡ made_by_join self.now.left.phase }
    {
        match self.value.finish {
            Finish::Done => false,
            Finish::Trapped(trap) => trap.is_of_join(),
        }
    }
}
