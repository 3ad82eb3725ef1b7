//! The join of a revision that has ended.

ghost use Rattle.std.specs.Prelude.{◌≡◌, ◌+◌, ◌<◌, ◌^◌, OnOk, option_copied};
ghost use Rattle.typed_programs.specs.Layout.{variables};
ghost use Rattle.rev_num.specs.declared.outcome.Cause.TheVariants as cause;
ghost use Rattle.revision_calculus.specs.State as state;
ghost use Rattle.revision_calculus.specs.Join as join;
ghost use Rattle.joined_locations.specs.Changes.{put};
ghost use Rattle.revision_state.specs.Views.{given};

use crate::local::Local;
use joined_locations::{FaultedMerge, compose, write_all};
use rev_num::{Cause, Path, Trap, Value};
use revision_state::{ForkOrJoin, Phase, Setting};
use std::alloc::{AllocError, Global};

impl<'a> Local<'a> {
    /// The joiner lists the join.
    fn note(&mut self, alloc: Global, on: &Path) -> Result<(), AllocError>
        ensures { OnOk result (self.new ≡ join.note on.now self.old) }
    {
        let path = on.copy(alloc)?;
        self.noted.push(ForkOrJoin::Joined {
            path,
            line: self.line,
        })?;
        Ok(())
    }

    /// The joiner traps at its least location whose merge faults.
    fn fail_merge(
        &mut self,
        alloc: Global,
        path: &Path,
        fault: FaultedMerge,
    ) -> Result<(), AllocError>
        ensures { OnOk result
            (self.new
            ≡ record self.old {
              phase = state.trapped (record {
                cause = cause.Merge fault.location fault.fault;
                line = self.old.line;
                origin = path.now;
              });
            }) }
    {
        let origin = path.copy(alloc)?;
        self.phase = Phase::Trapped(Trap {
            cause: Cause::Merge {
                location: fault.location,
                fault: fault.fault,
            },
            line: self.line,
            origin,
        });
        Ok(())
    }

    /// The joiner takes over what the joinee wrote, its text and its fuel.
    fn take_over(
        &mut self,
        alloc: Global,
        setting: &Setting<'a>,
        path: &Path,
        left: Option<&'a [u8]>,
        ended: &Local<'a>,
        changes: Vec<Option<Value>>,
    ) -> Result<(), AllocError>
        requires { self.old.fuel + ended.now.fuel < 2 ^ 64 }
        ensures { OnOk result
            (self.new
            ≡ join.absorb (given setting.now) path.now self.old (option_copied left.entry) ended.now
            (join.merged (put self.old.locations changes.items))) }
    {
        write_all(&mut self.locations, changes);
        self.text.append_text(alloc, &ended.text)?;
        self.fuel += ended.fuel;
        self.phase = Phase::Running;
        self.give(setting, left, Some(Value::Bool(true)))
    }

    /// The joiner after it joined a revision that is done.
    fn absorb(
        &mut self,
        alloc: Global,
        setting: &Setting<'a>,
        path: &Path,
        left: Option<&'a [u8]>,
        ended: &Local<'a>,
    ) -> Result<(), AllocError>
        requires { self.old.fuel + ended.now.fuel < 2 ^ 64 }
        ensures { OnOk result
            (self.new
            ≡ join.absorb (given setting.now) path.now self.old (option_copied left.entry) ended.now
            (join.compose (given setting.now).program 0
            (join.merges_of (variables (given setting.now).program)) self.old.locations
            ended.now.locations)) }
    {
        let _count = setting.typed.locations;
        let found = compose(
            alloc,
            setting.typed,
            &setting.merges,
            self.locations(),
            ended.locations(),
        )?;
        match found {
            Ok(changes) => self.take_over(alloc, setting, path, left, ended, changes),
            Err(fault) => self.fail_merge(alloc, path, fault),
        }
    }

    /// The joiner after it joined a revision that trapped.
    fn inherit(
        &mut self,
        alloc: Global,
        setting: &Setting<'a>,
        left: Option<&'a [u8]>,
        trap: &Trap,
    ) -> Result<(), AllocError>
        ensures { OnOk result
            (self.new
            ≡ join.inherit (given setting.now) self.old (option_copied left.entry)
            (state.trapped trap.now)) }
    {
        match left {
            None => {
                self.phase = Phase::Trapped(trap.copy(alloc)?);
                Ok(())
            }
            Some(name) => {
                self.phase = Phase::Running;
                self.give(setting, Some(name), Some(Value::Bool(false)))
            }
        }
    }

    /// Joins a revision that ended in this phase.
    fn join_ended(
        &mut self,
        alloc: Global,
        setting: &Setting<'a>,
        path: &Path,
        left: Option<&'a [u8]>,
        ended: &Local<'a>,
    ) -> Result<(), AllocError>
        requires { self.old.fuel + ended.now.fuel < 2 ^ 64 }
        ensures { OnOk result
            (self.new
            ≡ join.join_in (given setting.now) path.now self.old (option_copied left.entry)
            ended.now ended.now.phase) }
    {
        match &ended.phase {
            Phase::Done => self.absorb(alloc, setting, path, left, ended),
            Phase::Trapped(trap) => self.inherit(alloc, setting, left, trap),
            Phase::Running => Ok(()),
            Phase::Joining { on: _, left: _ } => Ok(()),
        }
    }

    /// The left side that waits at a join.
    fn waiting(&self) -> Option<&'a [u8]>
        ensures { option_copied result ≡ join.left_side self.now.phase }
    {
        self.phase.left()
    }

    /// Lets the revision at `path` join the one at `on`, which ended in this state. Where it has
    /// not ended, the join is listed and nothing else. The two have less than 2^64 units of fuel
    /// together.
    pub fn settle(
        &mut self,
        alloc: Global,
        setting: &Setting<'a>,
        path: &Path,
        on: &Path,
        ended: &Local<'a>,
    ) -> Result<(), AllocError>
        requires { self.old.fuel + ended.now.fuel < 2 ^ 64 }
        ensures { OnOk result
            (self.new ≡ join.join (given setting.now) path.now self.old on.now ended.now) }
    {
        let left = self.waiting();
        self.note(alloc, on)?;
        self.join_ended(alloc, setting, path, left, ended)
    }
}
