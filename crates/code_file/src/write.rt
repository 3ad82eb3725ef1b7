//! A code file, written field by field.

ghost use Rattle.std.specs.Prelude.{◌≡◌, ◌<◌, [], ◌∷◌, ◌++◌, length, map, OnOk, All};
ghost use Rattle.std.specs.Int.{w16, w32, w64, to_be_bytes};
ghost use Rattle.std.specs.List.{flat_map};
ghost use Rattle.code_file.specs.Counts.{HasShortName, IsShort, IsShortBlock, IsShortLayout};
ghost use Rattle.code_file.specs.Files as files;

use rev_code::{BlockClass, CodeBlock, CodeVar, Instr, LayoutItem};
use rev_num::{Bytes, Items, ValueKind, word_of_int};
use std::alloc::AllocError;

fn flag_byte(flag: bool) -> u8
    ensures { result ≡ files.flag_byte flag }
{
    if flag { 1 } else { 0 }
}

fn kind_byte(kind: ValueKind) -> u8
    ensures { result ≡ files.kind_byte kind }
{
    match kind {
        ValueKind::Int => 0,
        ValueKind::Bool => 1,
        ValueKind::Rev => 2,
    }
}

fn result_byte(kind: Option<ValueKind>) -> u8
    ensures { result ≡ files.result_byte kind }
{
    match kind {
        Some(kind) => kind_byte(kind),
        None => 3,
    }
}

fn class_byte(class: BlockClass) -> u8
    ensures { result ≡ files.class_byte class }
{
    match class {
        BlockClass::Fun => 0,
        BlockClass::Merge => 1,
        BlockClass::Proc => 2,
        BlockClass::Main => 3,
    }
}

/// Appends a number of 16 bits.
pub fn append_16(out: &mut Vec<u8>, n: u16) -> Result<(), AllocError>
    ensures { OnOk result (out.new.items ≡ out.old.items ++ to_be_bytes w16 n) }
{
    out.extend_from_slice(&n.to_be_bytes())
}

/// Appends a number of 32 bits.
pub fn append_32(out: &mut Vec<u8>, n: u32) -> Result<(), AllocError>
    ensures { OnOk result (out.new.items ≡ out.old.items ++ to_be_bytes w32 n) }
{
    out.extend_from_slice(&n.to_be_bytes())
}

/// Appends a number of 64 bits.
fn append_64(out: &mut Vec<u8>, n: u64) -> Result<(), AllocError>
    ensures { OnOk result (out.new.items ≡ out.old.items ++ to_be_bytes w64 n) }
{
    out.extend_from_slice(&n.to_be_bytes())
}

/// Appends the code byte of an instruction.
fn append_plain(out: &mut Vec<u8>, code: u8) -> Result<(), AllocError>
    ensures { OnOk result (out.new.items ≡ out.old.items ++ (code ∷ [])) }
{
    out.push(code)?;
    Ok(())
}

fn append_byte(out: &mut Vec<u8>, code: u8, n: u8) -> Result<(), AllocError>
    ensures { OnOk result (out.new.items ≡ out.old.items ++ (code ∷ n ∷ [])) }
{
    out.extend_from_slice(&[code, n])
}

fn append_short(out: &mut Vec<u8>, code: u8, n: u16) -> Result<(), AllocError>
    ensures { OnOk result (out.new.items ≡ out.old.items ++ (code ∷ to_be_bytes w16 n)) }
{
    out.push(code)?;
    append_16(out, n)
}

fn append_long(out: &mut Vec<u8>, code: u8, n: u32) -> Result<(), AllocError>
    ensures { OnOk result (out.new.items ≡ out.old.items ++ (code ∷ to_be_bytes w32 n)) }
{
    out.push(code)?;
    append_32(out, n)
}

fn append_word(out: &mut Vec<u8>, code: u8, n: u64) -> Result<(), AllocError>
    ensures { OnOk result (out.new.items ≡ out.old.items ++ (code ∷ to_be_bytes w64 n)) }
{
    out.push(code)?;
    append_64(out, n)
}

/// Appends an instruction: its code byte, and then its operand.
fn append_instr(out: &mut Vec<u8>, instr: Instr) -> Result<(), AllocError>
    ensures { OnOk result (out.new.items ≡ out.old.items ++ files.instr_bytes instr) }
{
    match instr {
        Instr::PushInt(n) => append_word(out, 0, word_of_int(n)),
        Instr::PushBool(b) => append_byte(out, 1, flag_byte(b)),
        Instr::PushNone => append_plain(out, 2),
        Instr::LoadLocal(n) => append_byte(out, 3, n),
        Instr::StoreLocal(n) => append_byte(out, 4, n),
        Instr::LoadShared(var) => append_short(out, 5, var),
        Instr::StoreShared(var) => append_short(out, 6, var),
        Instr::LoadCell(var) => append_short(out, 7, var),
        Instr::StoreCell(var) => append_short(out, 8, var),
        Instr::CheckCell(var) => append_short(out, 9, var),
        Instr::LoadInput => append_plain(out, 10),
        Instr::CountInput => append_plain(out, 11),
        Instr::Add => append_plain(out, 12),
        Instr::Sub => append_plain(out, 13),
        Instr::Mul => append_plain(out, 14),
        Instr::Div => append_plain(out, 15),
        Instr::Rem => append_plain(out, 16),
        Instr::Neg => append_plain(out, 17),
        Instr::Not => append_plain(out, 18),
        Instr::Eq => append_plain(out, 19),
        Instr::Ne => append_plain(out, 20),
        Instr::Lt => append_plain(out, 21),
        Instr::Le => append_plain(out, 22),
        Instr::Gt => append_plain(out, 23),
        Instr::Ge => append_plain(out, 24),
        Instr::Jump(to) => append_long(out, 25, to),
        Instr::JumpIfFalse(to) => append_long(out, 26, to),
        Instr::JumpIfTrue(to) => append_long(out, 27, to),
        Instr::Apply(block) => append_short(out, 28, block),
        Instr::Charge(line) => append_long(out, 29, line),
        Instr::Call(block) => append_short(out, 30, block),
        Instr::Fork(block) => append_short(out, 31, block),
        Instr::Join => append_plain(out, 32),
        Instr::Print(layout) => append_long(out, 33, layout),
        Instr::Assert => append_plain(out, 34),
        Instr::Return => append_plain(out, 35),
        Instr::Pop => append_plain(out, 36),
        Instr::TryJoin => append_plain(out, 37),
    }
}

fn append_instrs(out: &mut Vec<u8>, instrs: &[Instr]) -> Result<(), AllocError>
    ensures { OnOk result (out.new.items ≡ out.old.items ++ flat_map files.instr_bytes instrs.now) }
{
    for instr in instrs {
        append_instr(out, *instr)?;
    }
    Ok(())
}

/// Appends instructions behind their number.
fn append_counted_instrs(out: &mut Vec<u8>, instrs: &[Instr]) -> Result<(), AllocError>
    requires { length instrs.now < 4294967296 }
    ensures { OnOk result (out.new.items ≡
        out.old.items ++ files.counted_32 files.instr_bytes instrs.now) }
{
    append_32(out, instrs.len() as u32)?;
    append_instrs(out, instrs)
}

/// Appends a kind byte for each local.
fn append_kinds(out: &mut Vec<u8>, kinds: &[ValueKind]) -> Result<(), AllocError>
    ensures { OnOk result (out.new.items ≡ out.old.items ++ map files.kind_byte kinds.now) }
{
    for kind in kinds {
        out.push(kind_byte(*kind))?;
    }
    Ok(())
}

/// Appends what sort of variable it is.
fn append_sorts(out: &mut Vec<u8>, var: &CodeVar) -> Result<(), AllocError>
    ensures { OnOk result (out.new.items ≡ out.old.items
        ++ (files.flag_byte var.now.cumulative ∷ files.kind_byte var.now.kind
        ∷ files.flag_byte var.now.array ∷ [])) }
{
    out.extend_from_slice(&[
        flag_byte(var.cumulative),
        kind_byte(var.kind),
        flag_byte(var.array),
    ])
}

/// Appends a shared variable.
#[tactic(auto, unfolding(crate::specs::Files::var_bytes))]
fn append_var(out: &mut Vec<u8>, var: &CodeVar) -> Result<(), AllocError>
    requires { HasShortName var.now }
    ensures { OnOk result (out.new.items ≡ out.old.items ++ files.var_bytes var.now) }
{
    append_text(out, var.name.as_slice())?;
    append_sorts(out, var)?;
    append_32(out, var.cells)?;
    append_64(out, var.start)?;
    append_16(out, var.merge)?;
    Ok(())
}

fn append_vars(out: &mut Vec<u8>, vars: &[CodeVar]) -> Result<(), AllocError>
    requires { All HasShortName vars.now }
    ensures { OnOk result (out.new.items ≡ out.old.items ++ flat_map files.var_bytes vars.now) }
{
    for var in vars {
        append_var(out, var)?;
    }
    Ok(())
}

/// Appends a text behind its length.
#[tactic(auto, unfolding(crate::specs::Files::text_bytes))]
fn append_text(out: &mut Vec<u8>, text: &[u8]) -> Result<(), AllocError>
    requires { IsShort text.now }
    ensures { OnOk result (out.new.items ≡ out.old.items ++ files.text_bytes text.now) }
{
    append_32(out, text.len() as u32)?;
    out.extend_from_slice(text)
}

fn append_texts(out: &mut Vec<u8>, texts: &[Bytes]) -> Result<(), AllocError>
    requires { All IsShort texts.now }
    ensures { OnOk result (out.new.items ≡ out.old.items ++ flat_map files.text_bytes texts.now) }
{
    for text in texts {
        append_text(out, text.as_slice())?;
    }
    Ok(())
}

fn append_item(out: &mut Vec<u8>, item: LayoutItem) -> Result<(), AllocError>
    ensures { OnOk result (out.new.items ≡ out.old.items ++ files.item_bytes item) }
{
    match item {
        LayoutItem::Int => append_plain(out, 0),
        LayoutItem::Bool => append_plain(out, 1),
        LayoutItem::Text(n) => append_long(out, 2, n),
    }
}

fn append_items(out: &mut Vec<u8>, items: &[LayoutItem]) -> Result<(), AllocError>
    ensures { OnOk result (out.new.items ≡ out.old.items ++ flat_map files.item_bytes items.now) }
{
    for item in items {
        append_item(out, *item)?;
    }
    Ok(())
}

/// Appends a layout behind the number of its items.
#[tactic(auto, unfolding(crate::specs::Files::layout_bytes))]
fn append_layout(out: &mut Vec<u8>, items: &[LayoutItem]) -> Result<(), AllocError>
    requires { IsShortLayout items.now }
    ensures { OnOk result (out.new.items ≡ out.old.items ++ files.layout_bytes items.now) }
{
    out.push(items.len() as u8)?;
    append_items(out, items)
}

fn append_layouts(out: &mut Vec<u8>, layouts: &[Items<LayoutItem>]) -> Result<(), AllocError>
    requires { All IsShortLayout layouts.now }
    ensures { OnOk result (out.new.items ≡
        out.old.items ++ flat_map files.layout_bytes layouts.now) }
{
    for layout in layouts {
        append_layout(out, layout.as_slice())?;
    }
    Ok(())
}

/// Appends a block.
#[tactic(auto, unfolding(crate::specs::Files::block_bytes))]
fn append_block(out: &mut Vec<u8>, block: &CodeBlock) -> Result<(), AllocError>
    requires { IsShortBlock block.now }
    ensures { OnOk result (out.new.items ≡ out.old.items ++ files.block_bytes block.now) }
{
    let locals = block.locals.as_slice();
    let instrs = block.instrs.as_slice();
    out.push(class_byte(block.class))?;
    out.push(block.params)?;
    out.push(result_byte(block.result))?;
    out.push(locals.len() as u8)?;
    append_kinds(out, locals)?;
    append_counted_instrs(out, instrs)
}

fn append_blocks(out: &mut Vec<u8>, blocks: &[CodeBlock]) -> Result<(), AllocError>
    requires { All IsShortBlock blocks.now }
    ensures { OnOk result (out.new.items ≡ out.old.items ++ flat_map files.block_bytes blocks.now) }
{
    for block in blocks {
        append_block(out, block)?;
    }
    Ok(())
}

/// Appends the variables behind their number.
pub fn append_counted_vars(out: &mut Vec<u8>, vars: &[CodeVar]) -> Result<(), AllocError>
    requires few { length vars.now < 65536 }
    requires each { All HasShortName vars.now }
    ensures { OnOk result (out.new.items ≡
        out.old.items ++ files.counted_16 files.var_bytes vars.now) }
{
    append_16(out, vars.len() as u16)?;
    append_vars(out, vars)
}

/// Appends the texts behind their number.
pub fn append_counted_texts(out: &mut Vec<u8>, texts: &[Bytes]) -> Result<(), AllocError>
    requires few { length texts.now < 4294967296 }
    requires each { All IsShort texts.now }
    ensures { OnOk result (out.new.items ≡
        out.old.items ++ files.counted_32 files.text_bytes texts.now) }
{
    append_32(out, texts.len() as u32)?;
    append_texts(out, texts)
}

/// Appends the layouts behind their number.
pub fn append_counted_layouts(
    out: &mut Vec<u8>,
    layouts: &[Items<LayoutItem>],
) -> Result<(), AllocError>
    requires few { length layouts.now < 4294967296 }
    requires each { All IsShortLayout layouts.now }
    ensures { OnOk result (out.new.items ≡
        out.old.items ++ files.counted_32 files.layout_bytes layouts.now) }
{
    append_32(out, layouts.len() as u32)?;
    append_layouts(out, layouts)
}

/// Appends the blocks behind their number.
pub fn append_counted_blocks(out: &mut Vec<u8>, blocks: &[CodeBlock]) -> Result<(), AllocError>
    requires few { length blocks.now < 65536 }
    requires each { All IsShortBlock blocks.now }
    ensures { OnOk result (out.new.items ≡
        out.old.items ++ files.counted_16 files.block_bytes blocks.now) }
{
    append_16(out, blocks.len() as u16)?;
    append_blocks(out, blocks)
}
