//! The tests of an `if`.

ghost use Rattle.std.specs.Prelude.{◌≡◌, IfOk};
ghost use Rattle.rev_syntax.specs.View.{arms, stmts};
ghost use Rattle.revision_calculus.specs.Step as step;
ghost use Rattle.revision_steps.specs.Forms as form;
ghost use Rattle.revision_steps.specs.Owns.{own_event};
ghost use Rattle.revision_state.specs.Remaining.{block_of};
ghost use Rattle.revision_state.specs.Views.{given};

use crate::local::Local;
use crate::own::Own;
use rev_num::{Cause, Path};
use rev_syntax::{Arm, Stmt};
use revision_data::is_true;
use revision_state::Setting;
use std::alloc::{AllocError, Global};

impl<'a> Local<'a> {
    /// The block of the first test that is true, or the last one.
    fn select(
        &self,
        alloc: Global,
        setting: &Setting<'a>,
        all: &'a [Arm],
        last: &'a [Stmt],
    ) -> Result<Result<&'a [Stmt], Cause>, AllocError>
        ensures { IfOk result
            (λ a. block_of a
            ≡ step.select (given setting.now) self.now (arms all.now) (stmts last.now)) }
    {
        for arm in all {
            match self.value(alloc, setting, &arm.test)? {
                Ok(value) => {
                    if is_true(&value) {
                        return Ok(Ok(&arm.body.stmts));
                    }
                }
                Err(cause) => return Ok(Err(cause)),
            }
        }
        Ok(Ok(last))
    }

    /// An `if`, with the block of its last `else`, which has no statement where there is none.
    pub(crate) fn choose(
        &mut self,
        alloc: Global,
        setting: &Setting<'a>,
        path: &Path,
        all: &'a [Arm],
        last: &'a [Stmt],
    ) -> Result<Own<'a>, AllocError>
        ensures { IfOk result
            (λ n. own_event n self.new
            ≡ form.chooses (given setting.now) path.now self.old (arms all.now) (stmts last.now)) }
    {
        match self.select(alloc, setting, all, last)? {
            Ok(block) => {
                self.enter(block)?;
                Ok(Own::Moved)
            }
            Err(cause) => self.fail(alloc, path, cause),
        }
    }
}
