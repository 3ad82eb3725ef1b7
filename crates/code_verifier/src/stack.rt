//! What an instruction finds on the stack and leaves there.

ghost use Rattle.std.specs.Prelude.{◌≡◌, ◌<◌, drop, length, IfOk};
ghost use Rattle.code_rules.specs.Shapes.{begins};
ghost use Rattle.code_verifier.specs.ShapesByNumber.{shape_at};
ghost use Rattle.code_verifier.specs.Effects.{IsEffect};

use crate::operands::{gives, takes};
use crate::shapes::Shapes;
use rev_code::{Code, CodeBlock, Instr};
use rev_num::{ValueKind, same_kind};
use std::alloc::{AllocError, Global};

/// How many words the stack has and how many the instruction takes, whether those have the kinds
/// that it takes, and the number of the shape that it leaves.
#[derive(Clone, Copy)]
pub(crate) struct Effect {
    pub(crate) words: usize,
    pub(crate) wanted: usize,
    pub(crate) found: bool,
    pub(crate) after: usize,
}

pub(crate) fn effect_of(
    alloc: Global,
    code: &Code,
    block: &CodeBlock,
    shapes: &mut Shapes,
    id: usize,
    x: Instr,
) -> Result<Effect, AllocError>
    requires { id < length shapes.old }
    ensures { IfOk result
        (λ effect. IsEffect code.now block.now shapes.old id x shapes.new effect) }
{
    let wanted = takes(alloc, code, block, shapes.first(id), x)?;
    let words = shapes.depth(id);
    let found = begin(shapes, id, wanted.as_slice());
    let below = leave(shapes, id, wanted.len());
    let after = match gives(code, block, x) {
        None => below,
        Some(kind) => shapes.push(below, kind)?,
    };
    Ok(Effect {
        words,
        wanted: wanted.len(),
        found,
        after,
    })
}

/// Whether the stack begins with these kinds.
fn begin(shapes: &Shapes, id: usize, kinds: &[ValueKind]) -> bool
    requires { id < length shapes.now }
    ensures { result ≡ begins kinds.now (shape_at shapes.now id) }
{
    let mut rest = id;
    for kind in kinds {
        match shapes.first(rest) {
            None => return false,
            Some(first) => {
                if !same_kind(*kind, first) {
                    return false;
                }
            }
        }
        rest = shapes.rest(rest);
    }
    true
}

/// The number of the shape without so many kinds from the top on.
fn leave(shapes: &Shapes, id: usize, count: usize) -> usize
    requires { id < length shapes.now }
    ensures within { result < length shapes.now }
    ensures shape { shape_at shapes.now result ≡ drop count (shape_at shapes.now id) }
{
    let mut rest = id;
    for i in 0..count {
        prove!(i < count);
        rest = shapes.rest(rest);
    }
    rest
}
