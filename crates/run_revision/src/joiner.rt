//! Joiners, and what they take in.
ghost use Rattle.std.specs.Prelude.{◌≡◌};

use crate::left::CodeEnd;
use leg_run::CodeSetting;
use rev_vm::AtJoin;
use std::marker::Model;
use version_map::Snapshot;

/// A revision at a join, with what it runs under. Contracts see the state in which it stands there,
/// and what its snapshot belongs to.
pub struct CodeJoiner<'a, P: Snapshot> {
    pub(crate) setting: &'a CodeSetting,
    pub(crate) at: AtJoin<P>,
}

impl<'a, P: Snapshot> Model for CodeJoiner<'a, P> {
    ghost use Rattle.run_revision.specs.CodeValues.{JoinerValue};
    ghost use Rattle.rev_vm.specs.Starts.{run_under};
    ghost use Rattle.rev_vm.specs.Values.{StandsAtJoin, joiner_state, joiner_group};

    ghost Value = { JoinerValue };

    ghost view = { λ a. record {
      run = run_under a.setting.now;
      state = joiner_state (run_under a.setting.now) a.at;
      try = a.at.is_try;
      on = a.at.on;
      group = joiner_group a.at;
    } };

    ghost invariant = { λ a. StandsAtJoin (run_under a.setting.now) a.at
        (joiner_state (run_under a.setting.now) a.at) };
}

impl<'a, P: Snapshot> CodeJoiner<'a, P> {
    /// The number of the revision that it joins.
    pub fn on(&self) -> u32
        ensures { result ≡ self.now.on }
    {
        self.at.on()
    }

    /// Whether it outlives a trap of that revision.
    pub fn is_try(&self) -> bool
        ensures { result ≡ self.now.try }
    {
        self.at.is_try()
    }
}

/// A joiner that has taken in what a revision left that is done. What becomes of it is worked out
/// behind the turn.
pub struct JoinedBy<'a, P: Snapshot> {
    pub at: CodeJoiner<'a, P>,
    pub end: CodeEnd<'a>,
}

/// A joiner that the trap of its joinee has stopped.
pub struct Ended<'a, P: Snapshot> {
    pub at: CodeJoiner<'a, P>,
    pub end: CodeEnd<'a>,
}
