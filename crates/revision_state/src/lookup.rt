//! Shared variables and procedures by their names.

ghost use Rattle.std.specs.Prelude.{◌≡◌, IfOk, None, OnOk, [], map, option_copied, option_map};
ghost use Rattle.std.specs.Prelude.{slice_get};
ghost use Rattle.typed_programs.specs.Layout.{procedures};
ghost use Rattle.rev_syntax.specs.Trees.{no_statements};
ghost use Rattle.rev_syntax.specs.View.{declaration, parameter, stmts};
ghost use Rattle.typed_programs.specs.Definitions.{names_of};
ghost use Rattle.revision_calculus.specs.Program.{procedure_named};
ghost use Rattle.revision_calculus.specs.Evaluation as evaluation;
ghost use Rattle.revision_calculus.specs.Step as step;
ghost use Rattle.revision_data.specs.Reading.{location_at};
ghost use Rattle.revision_state.specs.Tables.{body_of, info_of, params_of, with_next};
ghost use Rattle.revision_state.specs.Views.{given};

use crate::body_names::BodyNames;
use crate::frame::Frame;
use crate::locals::Locals;
use crate::setting::Setting;
use rev_num::{Cause, Value};
use rev_syntax::{Decl, Param, Stmt};
use revision_data::place;
use std::alloc::{AllocError, Global};
use std::rc::Rc;
use typed_programs::SharedInfo;

/// A procedure: its parameters and its body, with the table of the names of its locals.
#[derive(Clone, Copy, Drop)]
pub struct Callee<'s, 'a> {
    params: &'a [Param],
    body: &'a [Stmt],
    names: &'s Rc<BodyNames>,
}

impl<'a> Setting<'a> {
    /// The first shared variable of this name.
    pub fn variable(&self, name: &[u8]) -> Option<SharedInfo>
        ensures { result ≡ info_of (given self.now).program name.now }
    {
        self.variables.find(name)
    }

    /// The declaration of this number.
    #[tactic(auto, using(typed_programs::proofs::Declared::slice_get_mapped))]
    fn declared(&self, number: u32) -> Option<&'a Decl>
        ensures { option_map declaration (option_copied result)
            ≡ slice_get (given self.now).program.declarations number }
    {
        self.typed.expanded.program.decls.get(number as usize)
    }

    /// The first procedure of this name; where there is none, one that does nothing stands for it.
    fn callee(&self, name: &[u8]) -> Callee<'_, 'a>
        ensures params { names_of (map parameter result.params.now)
            ≡ (procedure_named (procedures (given self.now).program) name.now).params }
        ensures body { stmts result.body.now
            ≡ (procedure_named (procedures (given self.now).program) name.now).body }
    {
        match self.procedures.find(name) {
            Some(number) => callee_of(self.declared(number), self.bodies.declared(number)),
            None => nothing(self.bodies.none()),
        }
    }

    /// A frame of the procedure of this name, with these values for its parameters.
    pub fn frame(
        &self,
        alloc: Global,
        name: &[u8],
        values: Vec<Value>,
        left: Option<&'a [u8]>,
    ) -> Result<Frame<'a>, AllocError>
        ensures { IfOk result
            (λ f. f ≡ step.frame_of (procedure_named (procedures (given self.now).program) name.now)
            values.items (option_copied left.entry)) }
    {
        let callee = self.callee(name);
        let locals = locals_of(alloc, callee.names, callee.params, values)?;
        Frame::new(alloc, locals, callee.body, left)
    }

    /// The frame of `main`, before its first statement.
    pub fn main_frame(&self, alloc: Global) -> Result<Frame<'a>, AllocError>
        ensures { IfOk result
            (λ f. f
            ≡ record { locals = []; rest = (given self.now).program.main; left = None }) }
    {
        let locals = Locals::new(alloc, self.bodies.main().clone()?)?;
        Frame::new(alloc, locals, &self.typed.expanded.program.main.stmts, None)
    }
}

/// The parameters and the body of a declared procedure.
fn callee_of<'s, 'a>(decl: Option<&'a Decl>, names: &'s Rc<BodyNames>) -> Callee<'s, 'a>
    ensures params { names_of (map parameter result.params.now)
        ≡ params_of (option_map declaration (option_copied decl.entry)) }
    ensures body { stmts result.body.now
        ≡ body_of (option_map declaration (option_copied decl.entry)) }
{
    match decl {
        Some(
            Decl::Proc {
                name: _,
                params,
                result: _,
                body,
            },
        ) => Callee {
            params,
            body: &body.stmts,
            names,
        },
        _ => nothing(names),
    }
}

/// A procedure that does nothing.
fn nothing<'s, 'a>(names: &'s Rc<BodyNames>) -> Callee<'s, 'a>
    ensures params { names_of (map parameter result.params.now) ≡ [] }
    ensures body { stmts result.body.now ≡ no_statements }
{
    Callee {
        params: &[],
        body: &[],
        names,
    }
}

/// The first of these parameters with the first of these values, and so on.
#[tactic(auto, using(crate::proofs::Callees::locals_none, crate::proofs::Callees::locals_more))]
fn locals_of<'a>(
    alloc: Global,
    names: &Rc<BodyNames>,
    params: &'a [Param],
    values: Vec<Value>,
) -> Result<Locals<'a>, AllocError>
    ensures { IfOk result
        (λ locals. locals
        ≡ step.locals_of (names_of (map parameter params.now)) values.items) }
{
    let mut locals = Locals::new(alloc, names.clone()?)?;
    for value in values {
        bind_next(&mut locals, params, value)?;
    }
    Ok(locals)
}

/// The next of these parameters gets this value, if there is one.
fn bind_next<'a>(
    locals: &mut Locals<'a>,
    params: &'a [Param],
    value: Value,
) -> Result<(), AllocError>
    ensures { OnOk result
        (locals.new ≡ with_next (names_of (map parameter params.now)) locals.old value) }
{
    let next = locals.len();
    if next < params.len() {
        let name = params[next].name.text.as_slice();
        locals.push(name, value)?;
    }
    Ok(())
}

/// The location of the cell at this index of an array with this row, whose index is tested.
fn cell_in(info: Option<SharedInfo>, index: i64) -> Result<usize, Cause>
    ensures { result ≡ location_at info index }
{
    match info {
        Some(info) => match place(index, info.cells as usize) {
            Some(cell) => Ok(info.base as usize + cell),
            None => Err(Cause::Index),
        },
        None => Err(Cause::Index),
    }
}

impl<'a> Setting<'a> {
    /// The location of a cell of the array of this name, whose index is tested.
    #[tactic(auto, using(crate::proofs::Readings::cell_location_at))]
    pub fn cell_location(&self, name: &[u8], index: i64) -> Result<usize, Cause>
        ensures { result ≡ evaluation.cell_location (given self.now) name.now index }
    {
        cell_in(self.variable(name), index)
    }
}
