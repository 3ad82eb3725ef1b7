//! Assignment to a cell of an array.

ghost use Rattle.std.specs.Prelude.{◌≡◌, IfOk};
ghost use Rattle.rev_syntax.specs.View.{expression};
ghost use Rattle.typed_programs.specs.Value as value;
ghost use Rattle.revision_machine.specs.Machine.{Moves};
ghost use Rattle.revision_calculus.specs.State as state;
ghost use Rattle.revision_calculus.specs.Step as step;
ghost use Rattle.revision_calculus.specs.Evaluation as evaluation;
ghost use Rattle.revision_steps.specs.Forms as form;
ghost use Rattle.revision_steps.specs.Owns.{own_event};
ghost use Rattle.revision_state.specs.Views.{given};

use crate::local::Local;
use crate::own::Own;
use rev_num::{Cause, Path};
use rev_syntax::{Expr, Name};
use revision_data::{number_of, write_at};
use revision_state::Setting;
use std::alloc::{AllocError, Global};

impl<'a> Local<'a> {
    /// The location that is assigned to, or why there is none.
    fn assigned(
        &self,
        alloc: Global,
        setting: &Setting<'a>,
        name: &Name,
        index: &Expr,
    ) -> Result<Result<usize, Cause>, AllocError>
        ensures { IfOk result
            (λ a. a
            ≡ value.and_then (evaluation.eval (given setting.now) self.now (expression index.now))
            (λ i. evaluation.cell_location (given setting.now) name.now.text.items
            (value.number_of i))) }
    {
        match self.value(alloc, setting, index)? {
            Ok(found) => Ok(setting.cell_location(&name.text, number_of(&found))),
            Err(cause) => Ok(Err(cause)),
        }
    }

    /// The value of this expression goes to the location of this number.
    fn assign_at(
        &mut self,
        alloc: Global,
        setting: &Setting<'a>,
        path: &Path,
        number: usize,
        e: &Expr,
    ) -> Result<Own<'a>, AllocError>
        ensures { IfOk result
            (λ n. own_event n self.new
            ≡ step.with_answer path.now self.old
            (evaluation.eval (given setting.now) self.old (expression e.now))
            (λ x. Moves
            (record self.old { locations = state.write_at self.old.locations number x }))) }
    {
        match self.value(alloc, setting, e)? {
            Ok(found) => {
                write_at(&mut self.locations, number, found);
                Ok(Own::Moved)
            }
            Err(cause) => self.fail(alloc, path, cause),
        }
    }

    /// `name[index] = e;`
    pub(crate) fn assign_cell(
        &mut self,
        alloc: Global,
        setting: &Setting<'a>,
        path: &Path,
        name: &Name,
        index: &Expr,
        e: &Expr,
    ) -> Result<Own<'a>, AllocError>
        ensures { IfOk result
            (λ n. own_event n self.new
            ≡ form.assigns_cell (given setting.now) path.now self.old name.now.text.items
            (expression index.now) (expression e.now)) }
    {
        match self.assigned(alloc, setting, name, index)? {
            Ok(number) => self.assign_at(alloc, setting, path, number, e),
            Err(cause) => self.fail(alloc, path, cause),
        }
    }
}
