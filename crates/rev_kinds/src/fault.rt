//! Which of two faults counts.

ghost use Rattle.std.specs.Prelude.{◌≡◌};
ghost use Rattle.typed_programs.specs.Least.{first_of};
ghost use Rattle.typed_programs.specs.Faults as rule;

use rev_report::Limit;
use typed_programs::TypeFault;

fn place(fault: TypeFault) -> u32
    ensures { result ≡ rule.place fault }
{
    match fault {
        TypeFault::UnknownName { at } => at,
        TypeFault::Redeclared { at } => at,
        TypeFault::WrongType { at } => at,
        TypeFault::WrongCount { at } => at,
        TypeFault::NoReturn { at } => at,
        TypeFault::LimitOf { at, .. } => at,
        TypeFault::OutOfMemory => 0,
    }
}

fn order(which: Limit) -> u8
    ensures { result ≡ rule.order which }
{
    match which {
        Limit::Locations => 6,
        Limit::Procedures => 7,
        Limit::Funs => 8,
        Limit::Parameters => 9,
        Limit::Locals => 10,
        Limit::Items => 11,
        Limit::Weight => 12,
    }
}

fn rank(fault: TypeFault) -> u8
    ensures { result ≡ rule.rank fault }
{
    match fault {
        TypeFault::UnknownName { .. } => 1,
        TypeFault::Redeclared { .. } => 2,
        TypeFault::WrongType { .. } => 3,
        TypeFault::WrongCount { .. } => 4,
        TypeFault::NoReturn { .. } => 5,
        TypeFault::LimitOf { which, .. } => order(which),
        TypeFault::OutOfMemory => 13,
    }
}

/// The first of two faults, either of which may be absent: the one at the lesser place, and at one
/// place the one of the lesser number.
pub fn first(a: Option<TypeFault>, b: Option<TypeFault>) -> Option<TypeFault>
    ensures { result ≡ first_of rule.place rule.rank a b }
{
    match (a, b) {
        (Some(f), Some(g)) => {
            if (place(g), rank(g)) < (place(f), rank(f)) {
                Some(g)
            } else {
                Some(f)
            }
        }
        (Some(f), None) => Some(f),
        (None, b) => b,
    }
}
