//! A code file, read field by field.

ghost use Rattle.std.specs.Prelude.{◌≡◌, ◌<◌};
ghost use Rattle.code_rules.specs.Tables.{is_name, is_start};
ghost use Rattle.code_file.specs.Fields.{Follows, tested};
ghost use Rattle.code_file.specs.Fields as field;
ghost use Rattle.code_file.specs.Parts as part;
ghost use Rattle.code_file.specs.Reads as reads;

use crate::cursor::Cursor;
use crate::fault::ReadFault;
use crate::values::{are_cells, class_of, flag_of, is_merge, kind_of, result_of};
use code_rules::{is_name, is_start, is_text};
use rev_code::{BlockClass, CodeBlock, CodeVar, Instr, LayoutItem};
use rev_num::{Bytes, Items, ValueKind, int_of_word};
use std::alloc::Global;

/// A truth value.
#[tactic(auto, unfolding(crate::specs::Fields::tested))]
pub fn flag(cursor: &mut Cursor<'_>) -> Result<bool, ReadFault>
    ensures reads { Follows
        (tested part.flag_of field.number_8 cursor.old.whole cursor.old.rest.now)
        result cursor.new.rest.now }
    ensures whole { cursor.new.whole ≡ cursor.old.whole }
{
    let bad = cursor.bad();
    let byte = cursor.number_8()?;
    flag_of(byte).ok_or(bad)
}

/// A kind.
#[tactic(auto, unfolding(crate::specs::Fields::tested))]
pub fn kind(cursor: &mut Cursor<'_>) -> Result<ValueKind, ReadFault>
    ensures reads { Follows
        (tested part.kind_of field.number_8 cursor.old.whole cursor.old.rest.now)
        result cursor.new.rest.now }
    ensures whole { cursor.new.whole ≡ cursor.old.whole }
{
    let bad = cursor.bad();
    let byte = cursor.number_8()?;
    kind_of(byte).ok_or(bad)
}

/// The kind of a result, or none.
#[tactic(auto, unfolding(crate::specs::Fields::tested))]
pub fn result_kind(cursor: &mut Cursor<'_>) -> Result<Option<ValueKind>, ReadFault>
    ensures reads { Follows
        (tested part.result_of field.number_8 cursor.old.whole cursor.old.rest.now)
        result cursor.new.rest.now }
    ensures whole { cursor.new.whole ≡ cursor.old.whole }
{
    let bad = cursor.bad();
    let byte = cursor.number_8()?;
    result_of(byte).ok_or(bad)
}

/// A class of blocks.
#[tactic(auto, unfolding(crate::specs::Fields::tested))]
pub fn class(cursor: &mut Cursor<'_>) -> Result<BlockClass, ReadFault>
    ensures reads { Follows
        (tested part.class_of field.number_8 cursor.old.whole cursor.old.rest.now)
        result cursor.new.rest.now }
    ensures whole { cursor.new.whole ≡ cursor.old.whole }
{
    let bad = cursor.bad();
    let byte = cursor.number_8()?;
    class_of(byte).ok_or(bad)
}

/// The cells of a variable, of so many locations before it.
#[tactic(auto, unfolding(crate::specs::Fields::tested))]
pub fn cells(
    cursor: &mut Cursor<'_>,
    wide: bool,
    array: bool,
    before: u64,
) -> Result<u32, ReadFault>
    ensures reads { Follows
        (tested (part.only (part.are_cells wide array before)) field.number_32
        cursor.old.whole cursor.old.rest.now)
        result cursor.new.rest.now }
    ensures whole { cursor.new.whole ≡ cursor.old.whole }
{
    let bad = cursor.bad();
    let cells = cursor.number_32()?;
    if !are_cells(wide, array, before, cells) {
        return Err(bad);
    }
    Ok(cells)
}

/// The start value of a variable of this kind.
#[tactic(auto, unfolding(crate::specs::Fields::tested))]
pub fn start(cursor: &mut Cursor<'_>, kind: ValueKind) -> Result<u64, ReadFault>
    ensures reads { Follows
        (tested (part.only (is_start kind)) field.number_64 cursor.old.whole cursor.old.rest.now)
        result cursor.new.rest.now }
    ensures whole { cursor.new.whole ≡ cursor.old.whole }
{
    let bad = cursor.bad();
    let start = cursor.number_64()?;
    if !is_start(kind, start) {
        return Err(bad);
    }
    Ok(start)
}

/// The merge block of a variable.
#[tactic(auto, unfolding(crate::specs::Fields::tested))]
pub fn merge(cursor: &mut Cursor<'_>, cumulative: bool) -> Result<u16, ReadFault>
    ensures reads { Follows
        (tested (part.only (part.is_merge cumulative)) field.number_16
        cursor.old.whole cursor.old.rest.now)
        result cursor.new.rest.now }
    ensures whole { cursor.new.whole ≡ cursor.old.whole }
{
    let bad = cursor.bad();
    let merge = cursor.number_16()?;
    if !is_merge(cumulative, merge) {
        return Err(bad);
    }
    Ok(merge)
}

/// A name, behind its length.
#[tactic(auto, unfolding(crate::specs::Reads::name, crate::specs::Fields::and_then, crate::specs::Fields::tested))]
pub fn name(alloc: Global, cursor: &mut Cursor<'_>) -> Result<Bytes, ReadFault>
    ensures reads { Follows
        (reads.name cursor.old.whole cursor.old.rest.now) result cursor.new.rest.now }
    ensures whole { cursor.new.whole ≡ cursor.old.whole }
{
    let count = cursor.number_32()?;
    let bad = cursor.bad();
    let name = cursor.bytes(count as usize)?;
    if !is_name(name) {
        return Err(bad);
    }
    Ok(Items::from_vec(Vec::from_slice(alloc, name)?))
}

/// A text, behind its length.
#[tactic(auto, unfolding(crate::specs::Reads::text, crate::specs::Fields::and_then, crate::specs::Fields::tested))]
pub fn text(alloc: Global, cursor: &mut Cursor<'_>) -> Result<Bytes, ReadFault>
    ensures reads { Follows
        (reads.text cursor.old.whole cursor.old.rest.now) result cursor.new.rest.now }
    ensures whole { cursor.new.whole ≡ cursor.old.whole }
{
    let count = cursor.number_32()?;
    let bad = cursor.bad();
    let text = cursor.bytes(count as usize)?;
    if !is_text(text) {
        return Err(bad);
    }
    Ok(Items::from_vec(Vec::from_slice(alloc, text)?))
}

/// A shared variable, of so many locations before it.
#[tactic(auto, unfolding(crate::specs::Reads::var, crate::specs::Fields::and_then))]
pub fn var(
    alloc: Global,
    cursor: &mut Cursor<'_>,
    wide: bool,
    before: u64,
) -> Result<CodeVar, ReadFault>
    ensures reads { Follows
        (reads.var wide before cursor.old.whole cursor.old.rest.now) result cursor.new.rest.now }
    ensures whole { cursor.new.whole ≡ cursor.old.whole }
{
    let name = name(alloc, cursor)?;
    let cumulative = flag(cursor)?;
    let kind = kind(cursor)?;
    let array = flag(cursor)?;
    let cells = cells(cursor, wide, array, before)?;
    let start = start(cursor, kind)?;
    let merge = merge(cursor, cumulative)?;
    Ok(CodeVar {
        name,
        cumulative,
        kind,
        array,
        cells,
        start,
        merge,
    })
}

/// An item of a layout.
#[tactic(auto, unfolding(crate::specs::Reads::layout_item, crate::specs::Fields::and_then, crate::specs::Fields::tested))]
pub fn layout_item(cursor: &mut Cursor<'_>) -> Result<LayoutItem, ReadFault>
    ensures reads { Follows
        (reads.layout_item cursor.old.whole cursor.old.rest.now) result cursor.new.rest.now }
    ensures whole { cursor.new.whole ≡ cursor.old.whole }
{
    let bad = cursor.bad();
    match cursor.number_8()? {
        0 => Ok(LayoutItem::Int),
        1 => Ok(LayoutItem::Bool),
        2 => Ok(LayoutItem::Text(cursor.number_32()?)),
        _ => Err(bad),
    }
}

/// The texts, behind their number.
#[tactic(auto, unfolding(crate::specs::Reads::texts, crate::specs::Fields::and_then), using(crate::proofs::Steps::list_steps))]
pub fn texts(alloc: Global, cursor: &mut Cursor<'_>) -> Result<Items<Bytes>, ReadFault>
    ensures reads { Follows
        (reads.texts cursor.old.whole cursor.old.rest.now) result cursor.new.rest.now }
    ensures whole { cursor.new.whole ≡ cursor.old.whole }
{
    let count = cursor.number_32()?;
    let mut parts = Vec::new(alloc);
    for _turn in 0..count {
        parts.push(text(alloc, cursor)?)?;
    }
    Ok(Items::from_vec(parts))
}

/// A layout, behind the number of its items.
#[tactic(auto, unfolding(crate::specs::Reads::layout, crate::specs::Fields::and_then), using(crate::proofs::Steps::list_steps))]
pub fn layout(alloc: Global, cursor: &mut Cursor<'_>) -> Result<Items<LayoutItem>, ReadFault>
    ensures reads { Follows
        (reads.layout cursor.old.whole cursor.old.rest.now) result cursor.new.rest.now }
    ensures whole { cursor.new.whole ≡ cursor.old.whole }
{
    let count = cursor.number_8()?;
    let mut parts = Vec::new(alloc);
    for _turn in 0..count {
        parts.push(layout_item(cursor)?)?;
    }
    Ok(Items::from_vec(parts))
}

/// The layouts, behind their number.
#[tactic(auto, unfolding(crate::specs::Reads::layouts, crate::specs::Fields::and_then), using(crate::proofs::Steps::list_steps))]
pub fn layouts(
    alloc: Global,
    cursor: &mut Cursor<'_>,
) -> Result<Items<Items<LayoutItem>>, ReadFault>
    ensures reads { Follows
        (reads.layouts cursor.old.whole cursor.old.rest.now) result cursor.new.rest.now }
    ensures whole { cursor.new.whole ≡ cursor.old.whole }
{
    let count = cursor.number_32()?;
    let mut parts = Vec::new(alloc);
    for _turn in 0..count {
        parts.push(layout(alloc, cursor)?)?;
    }
    Ok(Items::from_vec(parts))
}

/// The kinds of the locals, behind their number.
#[tactic(auto, unfolding(crate::specs::Reads::locals, crate::specs::Fields::and_then), using(crate::proofs::Steps::list_steps))]
pub fn locals(alloc: Global, cursor: &mut Cursor<'_>) -> Result<Items<ValueKind>, ReadFault>
    ensures reads { Follows
        (reads.locals cursor.old.whole cursor.old.rest.now) result cursor.new.rest.now }
    ensures whole { cursor.new.whole ≡ cursor.old.whole }
{
    let count = cursor.number_8()?;
    let mut parts = Vec::new(alloc);
    for _turn in 0..count {
        parts.push(kind(cursor)?)?;
    }
    Ok(Items::from_vec(parts))
}

/// The shared variables, behind their number.
#[tactic(auto, unfolding(crate::specs::Reads::vars, crate::specs::Fields::and_then), using(crate::proofs::Steps::list_steps))]
pub fn vars(alloc: Global, cursor: &mut Cursor<'_>, wide: bool) -> Result<Items<CodeVar>, ReadFault>
    ensures reads { Follows
        (reads.vars wide cursor.old.whole cursor.old.rest.now) result cursor.new.rest.now }
    ensures whole { cursor.new.whole ≡ cursor.old.whole }
{
    let count = cursor.number_16()?;
    let mut parts = Vec::new(alloc);
    let mut before: u64 = 0;
    for _turn in 0..count {
        let var = var(alloc, cursor, wide, before)?;
        before += var.cells as u64;
        parts.push(var)?;
    }
    Ok(Items::from_vec(parts))
}

/// An instruction: its code byte, and then its operand.
#[tactic(auto, unfolding(crate::specs::Reads::instr, crate::specs::Fields::and_then, crate::specs::Fields::tested), using(crate::proofs::Operands::beyond))]
pub fn instr(cursor: &mut Cursor<'_>, tries: bool) -> Result<Instr, ReadFault>
    ensures reads { Follows
        (reads.instr tries cursor.old.whole cursor.old.rest.now) result cursor.new.rest.now }
    ensures whole { cursor.new.whole ≡ cursor.old.whole }
{
    let bad = cursor.bad();
    match cursor.number_8()? {
        0 => Ok(Instr::PushInt(int_of_word(cursor.number_64()?))),
        1 => Ok(Instr::PushBool(flag(cursor)?)),
        2 => Ok(Instr::PushNone),
        3 => Ok(Instr::LoadLocal(cursor.number_8()?)),
        4 => Ok(Instr::StoreLocal(cursor.number_8()?)),
        5 => Ok(Instr::LoadShared(cursor.number_16()?)),
        6 => Ok(Instr::StoreShared(cursor.number_16()?)),
        7 => Ok(Instr::LoadCell(cursor.number_16()?)),
        8 => Ok(Instr::StoreCell(cursor.number_16()?)),
        9 => Ok(Instr::CheckCell(cursor.number_16()?)),
        10 => Ok(Instr::LoadInput),
        11 => Ok(Instr::CountInput),
        12 => Ok(Instr::Add),
        13 => Ok(Instr::Sub),
        14 => Ok(Instr::Mul),
        15 => Ok(Instr::Div),
        16 => Ok(Instr::Rem),
        17 => Ok(Instr::Neg),
        18 => Ok(Instr::Not),
        19 => Ok(Instr::Eq),
        20 => Ok(Instr::Ne),
        21 => Ok(Instr::Lt),
        22 => Ok(Instr::Le),
        23 => Ok(Instr::Gt),
        24 => Ok(Instr::Ge),
        25 => Ok(Instr::Jump(cursor.number_32()?)),
        26 => Ok(Instr::JumpIfFalse(cursor.number_32()?)),
        27 => Ok(Instr::JumpIfTrue(cursor.number_32()?)),
        28 => Ok(Instr::Apply(cursor.number_16()?)),
        29 => Ok(Instr::Charge(cursor.number_32()?)),
        30 => Ok(Instr::Call(cursor.number_16()?)),
        31 => Ok(Instr::Fork(cursor.number_16()?)),
        32 => Ok(Instr::Join),
        33 => Ok(Instr::Print(cursor.number_32()?)),
        34 => Ok(Instr::Assert),
        35 => Ok(Instr::Return),
        36 => Ok(Instr::Pop),
        37 => if tries { Ok(Instr::TryJoin) } else { Err(bad) },
        38..=255 => Err(bad),
    }
}

/// The instructions of a block, behind their number.
#[tactic(auto, unfolding(crate::specs::Reads::instrs, crate::specs::Fields::and_then), using(crate::proofs::Steps::list_steps))]
pub fn instrs(
    alloc: Global,
    cursor: &mut Cursor<'_>,
    tries: bool,
) -> Result<Items<Instr>, ReadFault>
    ensures reads { Follows
        (reads.instrs tries cursor.old.whole cursor.old.rest.now) result cursor.new.rest.now }
    ensures whole { cursor.new.whole ≡ cursor.old.whole }
{
    let count = cursor.number_32()?;
    let mut parts = Vec::new(alloc);
    for _turn in 0..count {
        parts.push(instr(cursor, tries)?)?;
    }
    Ok(Items::from_vec(parts))
}

/// A block.
#[tactic(auto, unfolding(crate::specs::Reads::block, crate::specs::Fields::and_then))]
pub fn block(alloc: Global, cursor: &mut Cursor<'_>, tries: bool) -> Result<CodeBlock, ReadFault>
    ensures reads { Follows
        (reads.block tries cursor.old.whole cursor.old.rest.now) result cursor.new.rest.now }
    ensures whole { cursor.new.whole ≡ cursor.old.whole }
{
    let class = class(cursor)?;
    let params = cursor.number_8()?;
    let result = result_kind(cursor)?;
    let locals = locals(alloc, cursor)?;
    let instrs = instrs(alloc, cursor, tries)?;
    Ok(CodeBlock {
        class,
        params,
        result,
        locals,
        instrs,
    })
}

/// The blocks, behind their number.
#[tactic(auto, unfolding(crate::specs::Reads::blocks, crate::specs::Fields::and_then), using(crate::proofs::Steps::list_steps))]
pub fn blocks(
    alloc: Global,
    cursor: &mut Cursor<'_>,
    tries: bool,
) -> Result<Items<CodeBlock>, ReadFault>
    ensures reads { Follows
        (reads.blocks tries cursor.old.whole cursor.old.rest.now) result cursor.new.rest.now }
    ensures whole { cursor.new.whole ≡ cursor.old.whole }
{
    let count = cursor.number_16()?;
    let mut parts = Vec::new(alloc);
    for _turn in 0..count {
        parts.push(block(alloc, cursor, tries)?)?;
    }
    Ok(Items::from_vec(parts))
}
