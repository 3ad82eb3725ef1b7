//! What is known on arrival at a place.

ghost use Rattle.std.specs.Prelude.{◌≡◌, ◌<◌, length};
ghost use Rattle.code_verifier.specs.Marking.{InRange, AllInRange, met, clashes_at, joined_mark};
ghost use Rattle.code_verifier.specs.Marking.{leap};

use crate::shapes::Shapes;

/// The number of the shape of the stack, and whether on each way to the place a Charge stands
/// behind the last Call or Fork.
#[derive(Clone, Copy)]
pub(crate) struct Mark {
    pub(crate) shape: usize,
    pub(crate) paid: bool,
}

/// What the instruction before leaves and what earlier jumps leave, together; None where their
/// shapes differ.
pub(crate) fn meet(shapes: &Shapes, fallen: Option<Mark>, jumped: Option<Mark>) -> Option<Mark>
    requires first { InRange shapes.now fallen }
    requires second { InRange shapes.now jumped }
    ensures { result ≡ met shapes.now fallen jumped }
{
    match (fallen, jumped) {
        (None, None) => Some(Mark {
            shape: 0,
            paid: false,
        }),
        (None, Some(n)) => Some(n),
        (Some(m), None) => Some(m),
        (Some(m), Some(n)) => {
            if shapes.is_same(m.shape, n.shape) {
                Some(Mark {
                    shape: m.shape,
                    paid: m.paid && n.paid,
                })
            } else {
                None
            }
        }
    }
}

/// Whether an earlier jump to the target left another shape; at a target that is not ahead, the
/// shape that it needs is the empty one.
pub(crate) fn clashes(
    shapes: &Shapes,
    ahead: &[Option<Mark>],
    at: usize,
    after: usize,
    to: Option<u32>,
) -> bool
    requires ahead { AllInRange shapes.now ahead.now }
    requires after { after < length shapes.now }
    ensures { result ≡ clashes_at shapes.now ahead.now at after to }
{
    match to {
        None => false,
        Some(to) => {
            if at < to as usize {
                match ahead.get(to as usize) {
                    Some(Some(m)) => !shapes.is_same(after, m.shape),
                    _ => false,
                }
            } else {
                shapes.depth(after) > 0
            }
        }
    }
}

fn joined(kept: Option<Mark>, n: Mark) -> Mark
    ensures { result ≡ joined_mark kept n }
{
    match kept {
        None => n,
        Some(m) => Mark {
            shape: n.shape,
            paid: m.paid && n.paid,
        },
    }
}

/// Leaves a mark where a jump leads on.
pub(crate) fn leap_on(ahead: &mut Vec<Option<Mark>>, at: usize, n: Mark, to: Option<u32>)
    ensures { ahead.new.items ≡ leap ahead.old.items at n to }
{
    if let Some(to) = to {
        let to = to as usize;
        if at < to && to < ahead.len() {
            ahead[to] = Some(joined(ahead[to], n));
        }
    }
}
