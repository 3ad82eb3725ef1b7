//! The values of expressions in a local state.

ghost use Rattle.std.specs.Prelude.{◌≡◌, IfOk, Ok, option_copied};
ghost use Rattle.rev_syntax.specs.View.{expression, expressions};
ghost use Rattle.name_tables.specs.Table.{find};
ghost use Rattle.typed_programs.specs.Value as spec;
ghost use Rattle.rev_evaluator.specs.Seen.{answer, seen};
ghost use Rattle.revision_calculus.specs.State as state;
ghost use Rattle.revision_calculus.specs.Evaluation as evaluation;
ghost use Rattle.revision_data.specs.Reading.{listed, shared_at};
ghost use Rattle.revision_state.specs.Views.{given};

use crate::local::Local;
use rev_evaluator::{Environment, Seen, evaluate, owned, seen_of};
use rev_num::{Cause, Value};
use rev_syntax::{Expr, Name};
use revision_data::{place, value_at};
use revision_state::Setting;
use std::alloc::{AllocError, Global};
use typed_programs::SharedInfo;

impl<'a> Local<'a> {
    /// What the revision sees at this location; the number 0 where there is none.
    fn seen_at(&self, number: usize) -> Seen<'_>
        ensures { seen result ≡ state.view_at self.now.locations number }
    {
        match value_at(&self.locations, number) {
            Some(value) => seen_of(value),
            None => Seen::Int(0),
        }
    }

    /// The value of the local of this name in the frame on top.
    fn local_named(&self, name: &[u8]) -> Option<&Value>
        ensures { option_copied result ≡ find name.now (evaluation.top_locals self.now.frames) }
    {
        match self.frames.top() {
            Some(frame) => frame.local(name),
            None => None,
        }
    }

    /// The value of a shared scalar with this row.
    fn scalar_at(&self, info: Option<SharedInfo>) -> Seen<'_>
        ensures { Ok (seen result) ≡ spec.read_scalar (shared_at info self.now.locations) }
    {
        match info {
            Some(info) => {
                if info.array {
                    return Seen::Int(0);
                }
                self.seen_at(info.base as usize)
            }
            None => Seen::Int(0),
        }
    }

    /// The cell at this index of a shared array with this row.
    fn cell_at(&self, info: Option<SharedInfo>, index: i64) -> Result<Seen<'_>, Cause>
        ensures { answer result ≡ spec.read_cell (shared_at info self.now.locations) index }
    {
        match info {
            Some(info) => {
                if !info.array {
                    return Ok(Seen::Int(0));
                }
                match place(index, info.cells as usize) {
                    Some(cell) => Ok(self.seen_at(info.base as usize + cell)),
                    None => Err(Cause::Index),
                }
            }
            None => Ok(Seen::Int(0)),
        }
    }

    /// The value of an expression, or why it has none.
    pub(crate) fn value(
        &self,
        alloc: Global,
        setting: &Setting<'a>,
        e: &Expr,
    ) -> Result<Result<Value, Cause>, AllocError>
        ensures { IfOk result
            (λ a. a ≡ evaluation.eval (given setting.now) self.now (expression e.now)) }
    {
        let scope = Scope {
            setting,
            local: self,
        };
        match evaluate(&setting.typed.expanded, &scope, e) {
            Ok(value) => Ok(Ok(owned(alloc, value)?)),
            Err(cause) => Ok(Err(cause)),
        }
    }

    /// The values of arguments, from left to right, or why the first that has none has none.
    #[tactic(auto, using(crate::proofs::Collected::one_more, crate::proofs::Collected::prefixed_none))]
    pub(crate) fn values(
        &self,
        alloc: Global,
        setting: &Setting<'a>,
        args: &[Expr],
    ) -> Result<Result<Vec<Value>, Cause>, AllocError>
        ensures { IfOk result
            (λ a. listed a ≡ evaluation.evals (given setting.now) self.now (expressions args.now)) }
    {
        let mut values = Vec::with_capacity(alloc, args.len())?;
        for arg in args {
            match self.value(alloc, setting, arg)? {
                Ok(value) => values.push(value)?,
                Err(cause) => return Ok(Err(cause)),
            }
        }
        Ok(Ok(values))
    }
}

/// What an expression reads: the locals of the frame on top, the shared variables of the view, and
/// the input numbers.
#[derive(Drop)]
struct Scope<'s, 'a> {
    setting: &'s Setting<'a>,
    local: &'s Local<'a>,
}

impl<'s, 'a> Environment for Scope<'s, 'a> {
    ghost use Rattle.revision_calculus.specs.Evaluation as evaluation;
    ghost use Rattle.revision_state.specs.Views.{given};

    ghost env = { λ r. evaluation.env (given r.setting.now) r.local.now };

    fn local(&self, name: &Name) -> Option<Seen<'_>> {
        match self.local.local_named(&name.text) {
            Some(value) => Some(seen_of(value)),
            None => None,
        }
    }

    fn scalar(&self, name: &Name) -> Seen<'_> {
        self.local.scalar_at(self.setting.variable(&name.text))
    }

    fn cell(&self, name: &Name, index: i64) -> Result<Seen<'_>, Cause> {
        self.local.cell_at(self.setting.variable(&name.text), index)
    }

    fn input(&self, index: i64) -> Result<i64, Cause> {
        match place(index, self.setting.input.len()) {
            Some(at) => Ok(self.setting.input[at]),
            None => Err(Cause::Index),
        }
    }

    fn inputs(&self) -> i64 {
        self.setting.input.len() as i64
    }
}
