//! The locals of a fun or a merge.

ghost use Rattle.std.specs.Prelude.{◌≡◌, map, option_map};
ghost use Rattle.rev_syntax.specs.View.{parameter};
ghost use Rattle.typed_programs.specs.Definitions.{names_of};
ghost use Rattle.typed_programs.specs.Value as spec;
ghost use Rattle.rev_evaluator.specs.Locals.{local};
ghost use Rattle.rev_evaluator.specs.Seen.{seen};

use crate::seen::Seen;
use rev_syntax::{Name, Param};

/// The locals of a fun or a merge, each of which hides an earlier one of its name.
#[derive(Drop)]
pub enum Locals<'l, 'a> {
    Empty,
    Bound {
        name: &'a [u8],
        value: Seen<'a>,
        rest: &'l Locals<'l, 'a>,
    },
    /// The first of these parameters with the first of these values, and so on.
    Passed {
        params: &'a [Param],
        values: &'l [Seen<'a>],
        rest: &'l Locals<'l, 'a>,
    },
}

impl<'l, 'a> Locals<'l, 'a> {
    /// The value of the name, if it has one.
    pub fn find(&self, name: &[u8]) -> Option<Seen<'a>>
        ensures { option_map seen result ≡ local self.now name.now }
    {
        match self {
            Locals::Empty => None,
            Locals::Bound {
                name: bound,
                value,
                rest,
            } => {
                if name == *bound {
                    Some(*value)
                } else {
                    rest.find(name)
                }
            }
            Locals::Passed {
                params,
                values,
                rest,
            } => match passed(params, values, name) {
                Some(found) => Some(found),
                None => rest.find(name),
            },
        }
    }
}

/// The value of a name among these parameters with these values; a later one hides an earlier one.
pub fn passed<'a>(params: &[Param], values: &[Seen<'a>], name: &[u8]) -> Option<Seen<'a>>
    ensures { option_map seen result
        ≡ spec.bind_all spec.nothing (names_of (map parameter params.now))
        (map seen values.now) name.now }
{
    let mut found = None;
    for (i, param) in params.iter().enumerate() {
        if let Some(value) = values.get(i) {
            if name == param.name.text.as_slice() {
                found = Some(*value);
            }
        }
    }
    found
}

/// These locals, and this value by this name, which hides an earlier one.
#[tactic(auto, using(crate::proofs::Bindings::local_values))]
pub fn bound<'l, 'a>(name: &'a Name, value: Seen<'a>, rest: &'l Locals<'l, 'a>) -> Locals<'l, 'a>
    ensures { local result ≡ spec.bind (local rest.now) name.now.text.items (seen value.entry) }
{
    Locals::Bound {
        name: &name.text,
        value,
        rest,
    }
}

/// These locals, and the first of these parameters with the first of these values, and so on.
#[tactic(auto, using(crate::proofs::Bindings::local_values))]
pub fn arguments<'l, 'a>(
    params: &'a [Param],
    values: &'l [Seen<'a>],
    rest: &'l Locals<'l, 'a>,
) -> Locals<'l, 'a>
    ensures { local result
        ≡ spec.bind_all (local rest.now) (names_of (map parameter params.now))
        (map seen values.now) }
{
    Locals::Passed {
        params,
        values,
        rest,
    }
}
