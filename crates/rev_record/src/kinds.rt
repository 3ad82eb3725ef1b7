//! Kinds of locations.

ghost use Rattle.std.specs.Prelude.{◌≡◌};
ghost use Rattle.rev_record.specs.Words.{kind_at};

use rev_code::CodeVar;
use rev_num::ValueKind;

/// The kind of the location of this number. Beyond the last it is that of ints.
pub(crate) fn kind_of(variables: &[CodeVar], location: u32) -> ValueKind
    ensures { result ≡ kind_at variables.now location }
{
    let mut place = location;
    for variable in variables {
        if place < variable.cells {
            return variable.kind;
        }
        place -= variable.cells;
    }
    ValueKind::Int
}
