//! The rules on the kinds of operands.

ghost use Rattle.std.specs.Prelude.{◌≡◌, map, option_map};
ghost use Rattle.std.specs.Option.{option_copied};
ghost use Rattle.rev_syntax.specs.View.{parameter, links, placed_name};
ghost use Rattle.typed_programs.specs.Kinds as kind;
ghost use Rattle.rev_kinds.specs.Walk as rule;

use crate::fault::first;
use crate::names::Callee;
use rev_num::{ValueKind, same_kind};
use rev_syntax::{BinaryOp, Link, Name, Param, UnaryOp};
use typed_programs::{Holder, TypeFault};

/// The kind of a name: of a local, or else of a shared variable.
pub fn name_kind(local: Option<Option<ValueKind>>, shared: Option<Holder>) -> Option<ValueKind>
    ensures { result ≡ kind.name_kind local shared }
{
    match (local, shared) {
        (Some(found), _) => found,
        (None, Some(holder)) => Some(holder.kind),
        (None, None) => None,
    }
}

/// The kind that a unary operator takes and gives.
pub fn operand_kind(op: UnaryOp) -> ValueKind
    ensures { result ≡ kind.operand_kind op }
{
    match op {
        UnaryOp::Neg => ValueKind::Int,
        UnaryOp::Not => ValueKind::Bool,
    }
}

/// The kind of what an operator gives.
pub fn given_kind(op: BinaryOp) -> ValueKind
    ensures { result ≡ kind.given_kind op }
{
    match op {
        BinaryOp::Add => ValueKind::Int,
        BinaryOp::Sub => ValueKind::Int,
        BinaryOp::Mul => ValueKind::Int,
        BinaryOp::Div => ValueKind::Int,
        BinaryOp::Rem => ValueKind::Int,
        _ => ValueKind::Bool,
    }
}

/// The kind of a chain with these links.
pub fn links_kind(rest: &[Link]) -> Option<ValueKind>
    ensures { result ≡ kind.links_kind (links rest.now) }
{
    match rest {
        [] => None,
        [link, ..] => Some(given_kind(link.op)),
    }
}

fn wrong(at: u32) -> Option<TypeFault>
    ensures { result ≡ Some (TypeFault.WrongType at) }
{
    Some(TypeFault::WrongType { at })
}

/// This kind is wanted. What has no kind violates no rule on kinds.
pub fn wants(at: u32, found: Option<ValueKind>, wanted: ValueKind) -> Option<TypeFault>
    ensures { result ≡ rule.wants at found wanted }
{
    match found {
        None => None,
        Some(found) => {
            if same_kind(found, wanted) {
                None
            } else {
                wrong(at)
            }
        }
    }
}

/// Any kind but a handle's is wanted.
pub fn not_rev(at: u32, found: Option<ValueKind>) -> Option<TypeFault>
    ensures { result ≡ rule.not_rev at found }
{
    match found {
        Some(ValueKind::Rev) => wrong(at),
        Some(ValueKind::Int) => None,
        Some(ValueKind::Bool) => None,
        None => None,
    }
}

/// The kind of something earlier is wanted, where that has a kind.
pub fn alike(at: u32, wanted: Option<ValueKind>, found: Option<ValueKind>) -> Option<TypeFault>
    ensures { result ≡ rule.alike at wanted found }
{
    match wanted {
        None => None,
        Some(wanted) => wants(at, found, wanted),
    }
}

/// A parameter's kind is wanted, where there is a parameter.
pub fn fits(at: u32, found: Option<ValueKind>, param: Option<&Param>) -> Option<TypeFault>
    ensures { result ≡ rule.fits at found (option_map parameter (option_copied param.entry)) }
{
    match param {
        None => None,
        Some(param) => wants(at, found, param.kind),
    }
}

/// A name that is used as a scalar.
pub fn scalar_use(
    name: &Name,
    local: Option<Option<ValueKind>>,
    shared: Option<Holder>,
) -> Option<TypeFault>
    ensures { result ≡ rule.scalar_use (placed_name name.now) local shared }
{
    let at = name.at;
    match (local, shared) {
        (Some(_), _) => None,
        (None, Some(holder)) => { if holder.array { wrong(at) } else { None } }
        (None, None) => Some(TypeFault::UnknownName { at }),
    }
}

/// A name that is used as an array.
pub fn array_use(
    name: &Name,
    local: Option<Option<ValueKind>>,
    shared: Option<Holder>,
) -> Option<TypeFault>
    ensures { result ≡ rule.array_use (placed_name name.now) local shared }
{
    let at = name.at;
    match (local, shared) {
        (Some(_), _) => wrong(at),
        (None, Some(holder)) => { if holder.array { None } else { wrong(at) } }
        (None, None) => Some(TypeFault::UnknownName { at }),
    }
}

/// Input is read.
pub fn input_use(inside: bool, at: u32) -> Option<TypeFault>
    ensures { result ≡ rule.input_use inside at }
{
    if inside { wrong(at) } else { None }
}

/// The left operand of an operator.
pub fn left_operand(op: BinaryOp, at: u32, found: Option<ValueKind>) -> Option<TypeFault>
    ensures { result ≡ rule.left_operand op at found }
{
    match op {
        BinaryOp::And => wants(at, found, ValueKind::Bool),
        BinaryOp::Or => wants(at, found, ValueKind::Bool),
        BinaryOp::Eq => not_rev(at, found),
        BinaryOp::Ne => not_rev(at, found),
        _ => wants(at, found, ValueKind::Int),
    }
}

/// The right operand of an order, whose left operand has this kind.
fn ordered(left: Option<ValueKind>, at: u32, found: Option<ValueKind>) -> Option<TypeFault>
    ensures { result ≡ rule.both (rule.wants at found ValueKind.Int) (rule.alike at left found) }
{
    first(wants(at, found, ValueKind::Int), alike(at, left, found))
}

/// The right operand of an operator, whose left operand has this kind.
pub fn right_operand(
    op: BinaryOp,
    left: Option<ValueKind>,
    at: u32,
    found: Option<ValueKind>,
) -> Option<TypeFault>
    ensures { result ≡ rule.right_operand op left at found }
{
    match op {
        BinaryOp::And => wants(at, found, ValueKind::Bool),
        BinaryOp::Or => wants(at, found, ValueKind::Bool),
        BinaryOp::Eq => alike(at, left, found),
        BinaryOp::Ne => alike(at, left, found),
        BinaryOp::Lt => ordered(left, at, found),
        BinaryOp::Le => ordered(left, at, found),
        BinaryOp::Gt => ordered(left, at, found),
        BinaryOp::Ge => ordered(left, at, found),
        _ => wants(at, found, ValueKind::Int),
    }
}

/// The first operand of a chain with these links.
pub fn first_operand(rest: &[Link], at: u32, found: Option<ValueKind>) -> Option<TypeFault>
    ensures { result ≡ rule.first_operand (links rest.now) at found }
{
    match rest {
        [] => None,
        [link, ..] => left_operand(link.op, at, found),
    }
}

/// A name after `call` or `rfork`, with this many arguments.
pub fn callee_use(name: &Name, args: usize, callee: Option<Callee>) -> Option<TypeFault>
    ensures { result
        ≡ rule.callee_use (placed_name name.now) args (option_map rule.callee callee.entry) }
{
    let at = name.at;
    match callee {
        None => Some(TypeFault::UnknownName { at }),
        Some(callee) => {
            if args == callee.params.len() {
                None
            } else {
                Some(TypeFault::WrongCount { at })
            }
        }
    }
}

/// A procedure whose result is wanted.
pub fn result_use(at: u32, callee: Option<Callee>) -> Option<TypeFault>
    ensures { result ≡ rule.result_use at (option_map rule.callee callee.entry) }
{
    match callee {
        None => None,
        Some(callee) => match callee.result {
            None => wrong(at),
            Some(_) => None,
        },
    }
}

/// The kind of what a fun or a procedure gives.
pub fn result_of(callee: Option<Callee>) -> Option<ValueKind>
    ensures { result ≡ kind.result_of (option_map rule.callee callee.entry) }
{
    match callee {
        None => None,
        Some(callee) => callee.result,
    }
}

/// The parameters of a fun or a procedure.
pub fn params_of<'a>(callee: Option<Callee<'a>>) -> &'a [Param]
    ensures { map parameter result.now ≡ rule.params_of (option_map rule.callee callee.entry) }
{
    match callee {
        None => &[],
        Some(callee) => callee.params,
    }
}
