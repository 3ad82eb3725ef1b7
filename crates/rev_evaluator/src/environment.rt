//! What an expression reads beside its own parts.

ghost use Rattle.std.specs.Prelude.{◌≡◌, Ok, length, option_map, pos};
ghost use Rattle.typed_programs.specs.Value as spec;
ghost use Rattle.typed_programs.specs.Value.{Env};
ghost use Rattle.rev_evaluator.specs.Environment.{reads};
ghost use Rattle.rev_evaluator.specs.Seen.{answer, input_answer, seen};

use crate::locals::Locals;
use crate::seen::Seen;
use rev_num::Cause;
use rev_syntax::Name;

/// What an expression reads beside its own parts: locals, shared variables and input numbers.
pub trait Environment {
    /// The environment of the definition of values.
    ghost env: { Self → Env };

    /// The value of the local of this name, if there is one.
    fn local(&self, name: &Name) -> Option<Seen<'_>>
        ensures { option_map seen result ≡ (env self.now).local name.now.text.items };

    /// The value of the shared scalar of this name; `Int(0)` where no scalar has it.
    fn scalar(&self, name: &Name) -> Seen<'_>
        ensures { Ok (seen result)
            ≡ spec.read_scalar ((env self.now).shared name.now.text.items) };

    /// The cell at this index of the shared array of this name, or the trap Index; `Int(0)` where
    /// no array has the name.
    fn cell(&self, name: &Name, index: i64) -> Result<Seen<'_>, Cause>
        ensures { answer result
            ≡ spec.read_cell ((env self.now).shared name.now.text.items) index };

    /// The input number at this index, or the trap Index.
    fn input(&self, index: i64) -> Result<i64, Cause>
        ensures { input_answer result ≡ spec.read_input (env self.now).inputs index };

    /// How many input numbers there are.
    fn inputs(&self) -> i64
        ensures { result ≡ pos (length (env self.now).inputs) };
}

/// An environment that has nothing.
#[derive(Drop)]
pub struct Nothing;

impl Environment for Nothing {
    ghost env = { λ _. spec.closed spec.nothing };

    fn local(&self, _name: &Name) -> Option<Seen<'_>> {
        None
    }

    fn scalar(&self, _name: &Name) -> Seen<'_> {
        Seen::Int(0)
    }

    fn cell(&self, _name: &Name, _index: i64) -> Result<Seen<'_>, Cause> {
        Ok(Seen::Int(0))
    }

    fn input(&self, _index: i64) -> Result<i64, Cause> {
        Err(Cause::Index)
    }

    fn inputs(&self) -> i64 {
        0
    }
}

/// What an expression reads: the environment, or inside a fun or a merge its parameters alone.
#[derive(Drop)]
pub enum Reads<'l, 'a, E> {
    Outside(&'a E),
    Inside(&'l Locals<'l, 'a>),
}

impl<'l, 'a, E: Environment> Reads<'l, 'a, E> {
    /// The value of a name: a local comes before a shared variable.
    pub fn variable(&self, name: &Name) -> Seen<'a>
        ensures { Ok (seen result)
            ≡ spec.read ((reads E.env self.now).local name.now.text.items)
            ((reads E.env self.now).shared name.now.text.items) }
    {
        match self {
            Reads::Outside(environment) => match environment.local(name) {
                Some(value) => value,
                None => environment.scalar(name),
            },
            Reads::Inside(locals) => match locals.find(&name.text) {
                Some(argument) => argument,
                None => Seen::Int(0),
            },
        }
    }

    /// The cell at this index, or the trap Index.
    pub fn cell(&self, name: &Name, index: i64) -> Result<Seen<'a>, Cause>
        ensures { answer result
            ≡ spec.read_cell ((reads E.env self.now).shared name.now.text.items) index }
    {
        match self {
            Reads::Outside(environment) => environment.cell(name, index),
            Reads::Inside(_) => Ok(Seen::Int(0)),
        }
    }

    /// The input number at this index, or the trap Index.
    pub fn input(&self, index: i64) -> Result<Seen<'a>, Cause>
        ensures { answer result ≡ spec.read_input (reads E.env self.now).inputs index }
    {
        match self {
            Reads::Outside(environment) => match environment.input(index) {
                Ok(number) => Ok(Seen::Int(number)),
                Err(cause) => Err(cause),
            },
            Reads::Inside(_) => Err(Cause::Index),
        }
    }

    /// How many input numbers there are.
    pub fn inputs(&self) -> i64
        ensures { result ≡ pos (length (reads E.env self.now).inputs) }
    {
        match self {
            Reads::Outside(environment) => environment.inputs(),
            Reads::Inside(_) => 0,
        }
    }
}
