//! Forks.

ghost use Rattle.std.specs.Prelude.{◌≡◌, ◌+◌, ◌<◌, ◌≤◌, ◌^◌, IfOk, OnOk, option_copied};
ghost use Rattle.rev_syntax.specs.View.{expressions};
ghost use Rattle.typed_programs.specs.Layout.{procedures};
ghost use Rattle.revision_calculus.specs.Program.{procedure_named};
ghost use Rattle.revision_calculus.specs.Step as step;
ghost use Rattle.revision_steps.specs.Forms as form;
ghost use Rattle.revision_steps.specs.Owns.{own_event};
ghost use Rattle.revision_state.specs.Views.{given};

use crate::local::Local;
use crate::own::Own;
use rev_num::{Path, Value};
use rev_syntax::{Expr, Name};
use revision_data::{Text, snapshot};
use revision_state::{ForkOrJoin, Frames, Phase, Setting};
use std::alloc::{AllocError, Global};

impl<'a> Local<'a> {
    /// What a fork gives to its child of the fuel that is left.
    fn part(&self, setting: &Setting<'a>) -> u64
        ensures part { result ≡ step.part (given setting.now) self.now.fuel }
        ensures most { result ≤ self.now.fuel }
    {
        setting.share.min(self.fuel / 2)
    }

    /// The child, which begins this procedure in the forker's view.
    fn new_child(
        &self,
        alloc: Global,
        setting: &Setting<'a>,
        name: &Name,
        values: Vec<Value>,
    ) -> Result<Local<'a>, AllocError>
        ensures { IfOk result
            (λ c. c ≡ step.new_child (given setting.now) self.now
            (procedure_named (procedures (given setting.now).program) name.now.text.items)
            values.items) }
    {
        let frame = setting.frame(alloc, &name.text, values, None)?;
        Ok(Local {
            locations: snapshot(alloc, &self.locations)?,
            frames: Frames::of(alloc, frame)?,
            fuel: self.part(setting),
            forks: 0,
            noted: Vec::new(alloc),
            text: Text::new(alloc),
            line: 0,
            phase: Phase::Running,
        })
    }

    /// The forker keeps the rest of the fuel, counts the fork and lists it.
    fn count_fork(
        &mut self,
        alloc: Global,
        setting: &Setting<'a>,
        path: &Path,
    ) -> Result<(), AllocError>
        requires { self.old.forks + 1 < 2 ^ 32 }
        ensures { OnOk result (self.new ≡ step.forker (given setting.now) path.now self.old) }
    {
        let part = self.part(setting);
        let child = path.child(alloc, self.forks)?;
        self.noted.push(ForkOrJoin::Forked {
            path: child,
            line: self.line,
        })?;
        self.fuel -= part;
        self.forks += 1;
        Ok(())
    }

    /// Forks a child that runs this procedure with these values.
    fn make_child(
        &mut self,
        alloc: Global,
        setting: &Setting<'a>,
        path: &Path,
        left: Option<&'a [u8]>,
        name: &Name,
        values: Vec<Value>,
    ) -> Result<Own<'a>, AllocError>
        requires { self.old.forks + 1 < 2 ^ 32 }
        ensures { IfOk result
            (λ n. own_event n self.new
            ≡ step.forks (given setting.now) path.now self.old (option_copied left.entry)
            name.now.text.items values.items) }
    {
        let child = self.new_child(alloc, setting, name, values)?;
        let handle = path.child(alloc, self.forks)?;
        self.count_fork(alloc, setting, path)?;
        self.give(setting, left, Some(Value::Rev(Some(handle))))?;
        Ok(Own::Forked(child))
    }

    /// `rfork name(args);`, or `rfork name(args)` for a left side.
    pub(crate) fn fork(
        &mut self,
        alloc: Global,
        setting: &Setting<'a>,
        path: &Path,
        left: Option<&'a [u8]>,
        name: &Name,
        args: &[Expr],
    ) -> Result<Own<'a>, AllocError>
        requires { self.old.forks + 1 < 2 ^ 32 }
        ensures { IfOk result
            (λ n. own_event n self.new
            ≡ form.forks (given setting.now) path.now self.old (option_copied left.entry)
            name.now.text.items (expressions args.now)) }
    {
        match self.values(alloc, setting, args)? {
            Ok(values) => self.make_child(alloc, setting, path, left, name, values),
            Err(cause) => self.fail(alloc, path, cause),
        }
    }
}
