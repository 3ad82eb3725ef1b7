//! What operands name, and the kinds that an instruction takes and gives.

ghost use Rattle.std.specs.Prelude.{◌≡◌, ◌∷◌, ◌++◌, [], reverse, slice_get, OnOk, IfOk};
ghost use Rattle.rev_code.specs.Printing.{printed_kinds};
ghost use Rattle.rev_code.specs.Step as meaning;
ghost use Rattle.code_rules.specs.Shapes as shape;
ghost use Rattle.code_rules.specs.Pass as pass;
ghost use Rattle.code_verifier.specs.ShapesByNumber.{first};

use crate::instr::{is_fun, is_pure};
use code_rules::{is_procedure, is_value_class};
use rev_code::{Code, CodeBlock, CodeVar, Instr, LayoutItem};
use rev_num::{Items, ValueKind};
use std::alloc::{AllocError, Global};

fn is_scalar(vars: &[CodeVar], n: usize) -> bool
    ensures { result ≡ pass.is_scalar (slice_get vars.now n) }
{
    match vars.get(n) {
        None => false,
        Some(var) => !var.array,
    }
}

fn is_array(vars: &[CodeVar], n: usize) -> bool
    ensures { result ≡ pass.is_array (slice_get vars.now n) }
{
    match vars.get(n) {
        None => false,
        Some(var) => var.array,
    }
}

fn is_fun_at(blocks: &[CodeBlock], n: usize) -> bool
    ensures { result ≡ pass.has_class meaning.is_fun (slice_get blocks.now n) }
{
    match blocks.get(n) {
        None => false,
        Some(block) => is_fun(block.class),
    }
}

fn is_procedure_at(blocks: &[CodeBlock], n: usize) -> bool
    ensures { result ≡ pass.has_class meaning.is_procedure (slice_get blocks.now n) }
{
    match blocks.get(n) {
        None => false,
        Some(block) => is_procedure(block.class),
    }
}

fn is_layout(layouts: &[Items<LayoutItem>], n: usize) -> bool
    ensures { result ≡ pass.is_layout (slice_get layouts.now n) }
{
    match layouts.get(n) {
        None => false,
        Some(_) => true,
    }
}

/// Whether the operand names something of the right sort, in the block of this number.
pub(crate) fn names(code: &Code, number: usize, x: Instr) -> bool
    ensures { result ≡ pass.names code.now number x }
{
    match x {
        Instr::LoadShared(v) => is_scalar(code.vars.as_slice(), v as usize),
        Instr::StoreShared(v) => is_scalar(code.vars.as_slice(), v as usize),
        Instr::LoadCell(v) => is_array(code.vars.as_slice(), v as usize),
        Instr::StoreCell(v) => is_array(code.vars.as_slice(), v as usize),
        Instr::CheckCell(v) => is_array(code.vars.as_slice(), v as usize),
        Instr::Apply(f) => (f as usize) < number && is_fun_at(code.blocks.as_slice(), f as usize),
        Instr::Call(p) => is_procedure_at(code.blocks.as_slice(), p as usize),
        Instr::Fork(p) => is_procedure_at(code.blocks.as_slice(), p as usize),
        Instr::Print(l) => is_layout(code.layouts.as_slice(), l as usize),
        _ => true,
    }
}

pub(crate) fn bad_operand(code: &Code, number: usize, block: &CodeBlock, x: Instr) -> bool
    ensures { result ≡ pass.bad_operand code.now number block.now x }
{
    !names(code, number, x) || (is_value_class(block.class) && !is_pure(x))
}

// ---- kinds

fn local_kind(kinds: &[ValueKind], n: usize) -> ValueKind
    ensures { result ≡ shape.kind_or_int (slice_get kinds.now n) }
{
    match kinds.get(n) {
        None => ValueKind::Int,
        Some(kind) => *kind,
    }
}

fn var_kind(vars: &[CodeVar], n: usize) -> ValueKind
    ensures { result ≡ shape.var_kind (slice_get vars.now n) }
{
    match vars.get(n) {
        None => ValueKind::Int,
        Some(var) => var.kind,
    }
}

fn result_kind(blocks: &[CodeBlock], n: usize) -> Option<ValueKind>
    ensures { shape.one_or_none result ≡ shape.result_kinds (slice_get blocks.now n) }
{
    match blocks.get(n) {
        None => None,
        Some(block) => block.result,
    }
}

fn one(alloc: Global, kind: ValueKind) -> Result<Vec<ValueKind>, AllocError>
    ensures { IfOk result (λ kinds. kinds.items ≡ kind ∷ []) }
{
    let mut kinds = Vec::new(alloc);
    kinds.push(kind)?;
    Ok(kinds)
}

/// The kind on top first.
fn two(alloc: Global, first: ValueKind, second: ValueKind) -> Result<Vec<ValueKind>, AllocError>
    ensures { IfOk result (λ kinds. kinds.items ≡ first ∷ second ∷ []) }
{
    let mut kinds = Vec::new(alloc);
    kinds.push(first)?;
    kinds.push(second)?;
    Ok(kinds)
}

fn one_or_none(alloc: Global, kind: Option<ValueKind>) -> Result<Vec<ValueKind>, AllocError>
    ensures { IfOk result (λ kinds. kinds.items ≡ shape.one_or_none kind) }
{
    match kind {
        None => Ok(Vec::new(alloc)),
        Some(kind) => one(alloc, kind),
    }
}

/// The parameters of a block, the last first.
fn params(alloc: Global, blocks: &[CodeBlock], n: usize) -> Result<Vec<ValueKind>, AllocError>
    ensures { IfOk result
        (λ kinds. kinds.items ≡ reverse (shape.param_kinds (slice_get blocks.now n))) }
{
    match blocks.get(n) {
        None => Ok(Vec::new(alloc)),
        Some(block) => {
            let locals = block.locals.as_slice();
            let count = locals.len().min(block.params as usize);
            let mut kinds = Vec::from_slice(alloc, &locals[..count])?;
            kinds.reverse();
            Ok(kinds)
        }
    }
}

/// The values of a layout, the last first.
fn layout_kinds(
    alloc: Global,
    layouts: &[Items<LayoutItem>],
    n: usize,
) -> Result<Vec<ValueKind>, AllocError>
    ensures { IfOk result
        (λ kinds. kinds.items ≡ reverse (shape.layout_kinds (slice_get layouts.now n))) }
{
    match layouts.get(n) {
        None => Ok(Vec::new(alloc)),
        Some(items) => {
            let mut kinds = values_of(alloc, items.as_slice())?;
            kinds.reverse();
            Ok(kinds)
        }
    }
}

/// The kinds of the items that are values, in order.
fn values_of(alloc: Global, items: &[LayoutItem]) -> Result<Vec<ValueKind>, AllocError>
    ensures { IfOk result (λ kinds. kinds.items ≡ printed_kinds items.now) }
{
    let mut kinds = Vec::new(alloc);
    for item in items {
        add_value(&mut kinds, *item)?;
    }
    Ok(kinds)
}

fn add_value(kinds: &mut Vec<ValueKind>, item: LayoutItem) -> Result<(), AllocError>
    ensures { OnOk result (kinds.new.items ≡ kinds.old.items ++ printed_kinds (item ∷ [])) }
{
    match item {
        LayoutItem::Int => kinds.push(ValueKind::Int)?,
        LayoutItem::Bool => kinds.push(ValueKind::Bool)?,
        LayoutItem::Text(_) => {}
    }
    Ok(())
}

/// The kind that Eq and Ne compare, by the kind on top.
fn compared(top: Option<ValueKind>) -> ValueKind
    ensures { result ≡ shape.compared (shape.one_or_none top) }
{
    match top {
        Some(ValueKind::Bool) => ValueKind::Bool,
        _ => ValueKind::Int,
    }
}

/// The kind that StoreLocal takes: any, where there is no such local.
fn kind_or_any(kinds: &[ValueKind], n: usize, top: Option<ValueKind>) -> ValueKind
    ensures { result ≡ shape.kind_or_any (slice_get kinds.now n) (shape.one_or_none top) }
{
    match kinds.get(n) {
        None => any_kind(top),
        Some(kind) => *kind,
    }
}

/// The kind that Pop takes.
fn any_kind(top: Option<ValueKind>) -> ValueKind
    ensures { result ≡ shape.any_kind (shape.one_or_none top) }
{
    match top {
        Some(kind) => kind,
        None => ValueKind::Int,
    }
}

/// The kinds that an instruction takes, the one on top first, where this is the kind on top of the
/// stack.
pub(crate) fn takes(
    alloc: Global,
    code: &Code,
    block: &CodeBlock,
    top: Option<ValueKind>,
    x: Instr,
) -> Result<Vec<ValueKind>, AllocError>
    ensures { IfOk result
        (λ kinds. kinds.items ≡ shape.takes code.now block.now (shape.one_or_none top) x) }
{
    let vars = code.vars.as_slice();
    let blocks = code.blocks.as_slice();
    match x {
        Instr::StoreLocal(n) => one(alloc, kind_or_any(block.locals.as_slice(), n as usize, top)),
        Instr::StoreShared(v) => one(alloc, var_kind(vars, v as usize)),
        Instr::LoadCell(_) | Instr::CheckCell(_) | Instr::LoadInput | Instr::Neg => one(
            alloc,
            ValueKind::Int,
        ),
        Instr::StoreCell(v) => two(alloc, var_kind(vars, v as usize), ValueKind::Int),
        Instr::Add | Instr::Sub | Instr::Mul | Instr::Div | Instr::Rem => two(
            alloc,
            ValueKind::Int,
            ValueKind::Int,
        ),
        Instr::Lt | Instr::Le | Instr::Gt | Instr::Ge => two(alloc, ValueKind::Int, ValueKind::Int),
        Instr::Not | Instr::Assert | Instr::JumpIfFalse(_) | Instr::JumpIfTrue(_) => one(
            alloc,
            ValueKind::Bool,
        ),
        Instr::Eq | Instr::Ne => two(alloc, compared(top), compared(top)),
        Instr::Apply(n) => params(alloc, blocks, n as usize),
        Instr::Call(n) => params(alloc, blocks, n as usize),
        Instr::Fork(n) => params(alloc, blocks, n as usize),
        Instr::Join | Instr::TryJoin => one(alloc, ValueKind::Rev),
        Instr::Print(n) => layout_kinds(alloc, code.layouts.as_slice(), n as usize),
        Instr::Return => one_or_none(alloc, block.result),
        Instr::Pop => one(alloc, any_kind(top)),
        Instr::PushInt(_) | Instr::PushBool(_) | Instr::PushNone | Instr::LoadLocal(_) => Ok(
            Vec::new(alloc),
        ),
        Instr::LoadShared(_) | Instr::CountInput | Instr::Jump(_) | Instr::Charge(_) => Ok(Vec::new(
            alloc,
        )),
    }
}

/// The kind that it leaves, if any.
pub(crate) fn gives(code: &Code, block: &CodeBlock, x: Instr) -> Option<ValueKind>
    ensures { shape.one_or_none result ≡ shape.gives code.now block.now x }
{
    let vars = code.vars.as_slice();
    match x {
        Instr::PushInt(_) | Instr::CheckCell(_) | Instr::LoadInput | Instr::CountInput => Some(
            ValueKind::Int,
        ),
        Instr::Add | Instr::Sub | Instr::Mul | Instr::Div | Instr::Rem | Instr::Neg => Some(
            ValueKind::Int,
        ),
        Instr::PushBool(_) | Instr::Not | Instr::Eq | Instr::Ne => Some(ValueKind::Bool),
        Instr::Lt | Instr::Le | Instr::Gt | Instr::Ge | Instr::TryJoin => Some(ValueKind::Bool),
        Instr::PushNone | Instr::Fork(_) => Some(ValueKind::Rev),
        Instr::LoadLocal(n) => Some(local_kind(block.locals.as_slice(), n as usize)),
        Instr::LoadShared(v) => Some(var_kind(vars, v as usize)),
        Instr::LoadCell(v) => Some(var_kind(vars, v as usize)),
        Instr::Apply(n) => result_kind(code.blocks.as_slice(), n as usize),
        Instr::Call(n) => result_kind(code.blocks.as_slice(), n as usize),
        Instr::StoreLocal(_) | Instr::StoreShared(_) | Instr::StoreCell(_) | Instr::Jump(_) => None,
        Instr::JumpIfFalse(_) | Instr::JumpIfTrue(_) | Instr::Charge(_) | Instr::Join => None,
        Instr::Print(_) | Instr::Assert | Instr::Return | Instr::Pop => None,
    }
}
