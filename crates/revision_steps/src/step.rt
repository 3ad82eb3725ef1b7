//! What a revision does next.

ghost use Rattle.std.specs.Prelude.{◌≡◌, ◌+◌, ◌<◌, ◌^◌, IfOk, None, option_copied, option_map};
ghost use Rattle.std.specs.Prelude.{length};
ghost use Rattle.revision_machine.specs.Machine.{Moves};
ghost use Rattle.rev_syntax.specs.View.{right_side, stmt};
ghost use Rattle.revision_machine.specs.Rules.{event_of, IsStill};
ghost use Rattle.revision_calculus.specs.Step as step;
ghost use Rattle.revision_steps.specs.Owns.{begun, own_event};
ghost use Rattle.revision_state.specs.Remaining.{with_next};
ghost use Rattle.revision_state.specs.Views.{given};

use crate::local::Local;
use crate::own::Own;
use rev_num::{Cause, Path};
use rev_syntax::{Form, Name, Rhs, Stmt};
use revision_machine::Next;
use revision_state::{Phase, Setting};
use std::alloc::{AllocError, Global};
use std::slice;

impl<'a> Local<'a> {
    /// A right side, whose value goes to the left side of this name.
    fn by_right(
        &mut self,
        alloc: Global,
        setting: &Setting<'a>,
        path: &Path,
        name: &'a Name,
        rhs: &'a Rhs,
    ) -> Result<Own<'a>, AllocError>
        requires { self.old.forks + 1 < 2 ^ 32 }
        ensures { IfOk result
            (λ n. own_event n self.new
            ≡ step.by_right (given setting.now) path.now self.old name.now.text.items
            (right_side rhs.now)) }
    {
        match rhs {
            Rhs::Plain(e) => self.assign(alloc, setting, path, name, e),
            Rhs::Call {
                at: _,
                name: callee,
                args,
            } => self.call(
                alloc,
                setting,
                path,
                Some(name.text.as_slice()),
                callee,
                args,
            ),
            Rhs::Fork {
                at: _,
                name: callee,
                args,
            } => self.fork(
                alloc,
                setting,
                path,
                Some(name.text.as_slice()),
                callee,
                args,
            ),
            Rhs::Try { at: _, handle } => {
                self.join(alloc, setting, path, Some(name.text.as_slice()), handle)
            }
        }
    }

    /// `return;`
    fn return_nothing(&mut self, setting: &Setting<'a>) -> Result<Own<'a>, AllocError>
        ensures { IfOk result
            (λ n. own_event n self.new
            ≡ Moves (step.end_frame (given setting.now) self.old self.old.frames None)) }
    {
        self.end_frame(setting, None)?;
        Ok(Own::Moved)
    }

    /// Does a statement that was paid for and taken out of the frame on top.
    fn does(
        &mut self,
        alloc: Global,
        setting: &Setting<'a>,
        path: &Path,
        this: &'a Stmt,
    ) -> Result<Own<'a>, AllocError>
        requires { self.old.forks + 1 < 2 ^ 32 }
        ensures { IfOk result
            (λ n. own_event n self.new
            ≡ step.does (given setting.now) path.now self.old (stmt this.now)) }
    {
        match &this.form {
            Form::Let { name, rhs } => self.by_right(alloc, setting, path, name, rhs),
            Form::Assign { name, rhs } => self.by_right(alloc, setting, path, name, rhs),
            Form::AssignCell { name, index, value } => {
                self.assign_cell(alloc, setting, path, name, index, value)
            }
            Form::If { arms, last } => match last {
                None => self.choose(alloc, setting, path, arms, &[]),
                Some(last) => self.choose(alloc, setting, path, arms, &last.stmts),
            },
            Form::While { test, body } => {
                self.repeat(alloc, setting, path, this, test, &body.stmts)
            }
            Form::Call { name, args } => self.call(alloc, setting, path, None, name, args),
            Form::Return { value } => match value {
                None => self.return_nothing(setting),
                Some(e) => self.return_value(alloc, setting, path, e),
            },
            Form::Fork { name, args } => self.fork(alloc, setting, path, None, name, args),
            Form::Join { handle } => self.join(alloc, setting, path, None, handle),
            Form::Print { items } => self.print(alloc, setting, path, items),
            Form::Assert { test } => self.assert(alloc, setting, path, test),
        }
    }

    /// Pays for a statement that was taken out of the frame on top and does it, or puts it back and
    /// traps.
    fn pay(
        &mut self,
        alloc: Global,
        setting: &Setting<'a>,
        path: &Path,
        this: &'a Stmt,
    ) -> Result<Own<'a>, AllocError>
        requires { self.old.fuel + self.old.forks < 2 ^ 32 }
        ensures { IfOk result
            (λ n. own_event n self.new
            ≡ begun (given setting.now) path.now self.old (stmt this.now)) }
    {
        self.line = this.line;
        if self.fuel == 0 {
            self.enter(slice::from_ref(this))?;
            return self.fail(alloc, path, Cause::Spent);
        }
        self.fuel -= 1;
        self.does(alloc, setting, path, this)
    }

    /// Takes the next statement out of the frame on top, if it has one.
    fn take(&mut self) -> Result<Option<&'a Stmt>, AllocError>
        requires { 0 < length self.old.frames }
        ensures { IfOk result
            (λ found. self.old
            ≡ record self.new {
              frames = with_next (option_map stmt (option_copied found)) self.new.frames;
            }) }
    {
        self.frames.next()
    }

    /// A step of a revision that has a frame.
    fn run_frame(
        &mut self,
        alloc: Global,
        setting: &Setting<'a>,
        path: &Path,
    ) -> Result<Own<'a>, AllocError>
        requires room { self.old.fuel + self.old.forks < 2 ^ 32 }
        requires some { 0 < length self.old.frames }
        ensures { IfOk result
            (λ n. own_event n self.new
            ≡ step.by_frames (given setting.now) path.now self.old self.old.frames) }
    {
        match self.take()? {
            None => self.return_nothing(setting),
            Some(this) => self.pay(alloc, setting, path, this),
        }
    }

    /// A step of a running revision.
    fn run(
        &mut self,
        alloc: Global,
        setting: &Setting<'a>,
        path: &Path,
    ) -> Result<Own<'a>, AllocError>
        requires { self.old.fuel + self.old.forks < 2 ^ 32 }
        ensures { IfOk result
            (λ n. own_event n self.new
            ≡ step.by_frames (given setting.now) path.now self.old self.old.frames) }
    {
        if self.frames.len() == 0 {
            self.finish();
            return Ok(Own::Moved);
        }
        self.run_frame(alloc, setting, path)
    }

    /// Makes the next step or fork of the revision at this path, or tells which revision it joins
    /// or that it has ended. Its units of fuel and its forks are fewer than 2^32 together.
    pub fn advance(
        &mut self,
        alloc: Global,
        setting: &Setting<'a>,
        path: &Path,
    ) -> Result<Next<Local<'a>>, AllocError>
        requires { self.old.fuel + self.old.forks < 2 ^ 32 }
        ensures event { IfOk result
            (λ n. event_of n self.new ≡ step.next (given setting.now) path.now self.old) }
        ensures still { IfOk result (λ n. IsStill n self.old self.new) }
    {
        match &self.phase {
            Phase::Done | Phase::Trapped(_) => return Ok(Next::Ended),
            Phase::Joining { on, left: _ } => return Ok(Next::Joins(on.copy(alloc)?)),
            Phase::Running => {}
        }
        let own = self.run(alloc, setting, path)?;
        self.close_text(alloc)?;
        match own {
            Own::Moved => Ok(Next::Moved),
            Own::Forked(child) => Ok(Next::Forked(child)),
        }
    }
}
