//! What each form of a statement does.

ghost use Rattle.std.specs.Prelude.{◌≡◌, ◌<◌, IfOk, OnOk, Some, option_copied};
ghost use Rattle.rev_syntax.specs.View.{block, expression, expressions, stmt};
ghost use Rattle.rev_syntax.specs.View.{stmts};
ghost use Rattle.revision_calculus.specs.Step as step;
ghost use Rattle.revision_steps.specs.Forms as form;
ghost use Rattle.revision_steps.specs.Owns.{own_event};
ghost use Rattle.revision_state.specs.Views.{given};

use crate::local::Local;
use crate::own::Own;
use rev_num::{Cause, MOST_FRAMES, Path, Value};
use rev_syntax::{Block, Expr, Name, Stmt};
use revision_data::is_true;
use revision_state::{Phase, Setting};
use std::alloc::{AllocError, Global};
use std::slice;

impl<'a> Local<'a> {
    /// `name = e;`, also with a `let`.
    pub(crate) fn assign(
        &mut self,
        alloc: Global,
        setting: &Setting<'a>,
        path: &Path,
        name: &'a Name,
        e: &Expr,
    ) -> Result<Own<'a>, AllocError>
        ensures { IfOk result
            (λ n. own_event n self.new
            ≡ form.assigns (given setting.now) path.now self.old name.now.text.items
            (expression e.now)) }
    {
        match self.value(alloc, setting, e)? {
            Ok(value) => {
                self.set(setting, &name.text, value)?;
                Ok(Own::Moved)
            }
            Err(cause) => self.fail(alloc, path, cause),
        }
    }

    /// `assert test;`
    pub(crate) fn assert(
        &mut self,
        alloc: Global,
        setting: &Setting<'a>,
        path: &Path,
        test: &Expr,
    ) -> Result<Own<'a>, AllocError>
        ensures { IfOk result
            (λ n. own_event n self.new
            ≡ form.asserts (given setting.now) path.now self.old (expression test.now)) }
    {
        match self.value(alloc, setting, test)? {
            Ok(value) => {
                if is_true(&value) {
                    return Ok(Own::Moved);
                }
                self.fail(alloc, path, Cause::Assert)
            }
            Err(cause) => self.fail(alloc, path, cause),
        }
    }

    /// `return e;`
    pub(crate) fn return_value(
        &mut self,
        alloc: Global,
        setting: &Setting<'a>,
        path: &Path,
        e: &Expr,
    ) -> Result<Own<'a>, AllocError>
        ensures { IfOk result
            (λ n. own_event n self.new
            ≡ form.returns (given setting.now) path.now self.old (expression e.now)) }
    {
        match self.value(alloc, setting, e)? {
            Ok(value) => {
                self.end_frame(setting, Some(value))?;
                Ok(Own::Moved)
            }
            Err(cause) => self.fail(alloc, path, cause),
        }
    }

    /// This block comes before the rest of the frame on top.
    pub(crate) fn enter(&mut self, block: &'a [Stmt]) -> Result<(), AllocError>
        ensures { OnOk result (self.new ≡ step.enter (stmts block.now) self.old) }
    {
        self.frames.enter(block)
    }

    /// `while test { body }`, which is this statement.
    pub(crate) fn repeat(
        &mut self,
        alloc: Global,
        setting: &Setting<'a>,
        path: &Path,
        this: &'a Stmt,
        test: &Expr,
        body: &'a [Stmt],
    ) -> Result<Own<'a>, AllocError>
        ensures { IfOk result
            (λ n. own_event n self.new
            ≡ form.repeats (given setting.now) path.now self.old (stmt this.now)
            (expression test.now) (stmts body.now)) }
    {
        match self.value(alloc, setting, test)? {
            Ok(value) => {
                if is_true(&value) {
                    self.enter(slice::from_ref(this))?;
                    self.enter(body)?;
                    return Ok(Own::Moved);
                }
                Ok(Own::Moved)
            }
            Err(cause) => self.fail(alloc, path, cause),
        }
    }

    /// Comes to join the revision of this handle, or traps where it is `none`.
    fn come_to_join(
        &mut self,
        alloc: Global,
        path: &Path,
        left: Option<&'a [u8]>,
        handle: Value,
    ) -> Result<Own<'a>, AllocError>
        ensures { IfOk result
            (λ n. own_event n self.new
            ≡ step.joins path.now self.old (option_copied left.entry) handle) }
    {
        match handle {
            Value::Rev(Some(on)) => {
                self.phase = Phase::Joining { on, left };
                Ok(Own::Moved)
            }
            _ => self.fail(alloc, path, Cause::JoinNone),
        }
    }

    /// `rjoin handle;`, or `tryjoin handle` for a left side.
    pub(crate) fn join(
        &mut self,
        alloc: Global,
        setting: &Setting<'a>,
        path: &Path,
        left: Option<&'a [u8]>,
        handle: &Expr,
    ) -> Result<Own<'a>, AllocError>
        ensures { IfOk result
            (λ n. own_event n self.new
            ≡ form.joins (given setting.now) path.now self.old (option_copied left.entry)
            (expression handle.now)) }
    {
        match self.value(alloc, setting, handle)? {
            Ok(value) => self.come_to_join(alloc, path, left, value),
            Err(cause) => self.fail(alloc, path, cause),
        }
    }

    /// A frame of this procedure with these values, or a trap where there are too many frames.
    fn push_frame(
        &mut self,
        alloc: Global,
        setting: &Setting<'a>,
        path: &Path,
        left: Option<&'a [u8]>,
        name: &Name,
        values: Vec<Value>,
    ) -> Result<Own<'a>, AllocError>
        ensures { IfOk result
            (λ n. own_event n self.new
            ≡ step.calls (given setting.now) path.now self.old (option_copied left.entry)
            name.now.text.items values.items) }
    {
        if self.frames.len() >= MOST_FRAMES {
            return self.fail(alloc, path, Cause::CallDepth);
        }
        let frame = setting.frame(alloc, &name.text, values, left)?;
        self.frames.push(frame)?;
        Ok(Own::Moved)
    }

    /// A call of a procedure, for a left side or for none.
    pub(crate) fn call(
        &mut self,
        alloc: Global,
        setting: &Setting<'a>,
        path: &Path,
        left: Option<&'a [u8]>,
        name: &Name,
        args: &[Expr],
    ) -> Result<Own<'a>, AllocError>
        ensures { IfOk result
            (λ n. own_event n self.new
            ≡ form.calls (given setting.now) path.now self.old (option_copied left.entry)
            name.now.text.items (expressions args.now)) }
    {
        match self.values(alloc, setting, args)? {
            Ok(values) => self.push_frame(alloc, setting, path, left, name, values),
            Err(cause) => self.fail(alloc, path, cause),
        }
    }
}
