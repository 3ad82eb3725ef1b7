//! Code as text.

ghost use Rattle.std.specs.Prelude.{◌≡◌, ◌++◌, codes, IfOk, OnOk};
ghost use Rattle.std.specs.Fmt.{decimal, signed_decimal};
ghost use Rattle.std.specs.List.{flat_map};
ghost use Rattle.code_listing.specs.Listing as lines;
ghost use Rattle.code_listing.specs.Listing.{listing, numbered};

use code_file::{version_for, version_number};
use itoa::Buffer;
use rev_code::{BlockClass, Code, CodeBlock, CodeVar, Instr, LayoutItem};
use rev_num::{Bytes, Items, ValueKind, append_decimal, int_of_word};
use std::alloc::{AllocError, Global};

/// Appends a number in decimal.
fn append_number(out: &mut Vec<u8>, n: u64) -> Result<(), AllocError>
    ensures { OnOk result (out.new.items ≡ out.old.items ++ decimal n) }
{
    let mut buffer = Buffer::new();
    out.extend_from_slice(buffer.format(n).as_bytes())?;
    Ok(())
}

fn kind_word(kind: ValueKind) -> &'static [u8]
    ensures { result.now ≡ lines.kind_word kind }
{
    match kind {
        ValueKind::Int => b"int",
        ValueKind::Bool => b"bool",
        ValueKind::Rev => b"rev",
    }
}

fn truth_word(truth: bool) -> &'static [u8]
    ensures { result.now ≡ lines.truth_word truth }
{
    if truth { b"true" } else { b"false" }
}

/// Appends a start value of this kind.
fn append_start(out: &mut Vec<u8>, kind: ValueKind, word: u64) -> Result<(), AllocError>
    ensures { OnOk result (out.new.items ≡ out.old.items ++ lines.start_text kind word) }
{
    match kind {
        ValueKind::Int => append_decimal(out, int_of_word(word)),
        ValueKind::Bool => out.extend_from_slice(truth_word(word != 0)),
        ValueKind::Rev => out.extend_from_slice(b"none"),
    }
}

/// Appends the kind of a cumulative variable, and by which block it is merged.
#[tactic(auto, unfolding(crate::specs::Listing::cumulative_text))]
fn append_cumulative(out: &mut Vec<u8>, kind: ValueKind, merge: u16) -> Result<(), AllocError>
    ensures { OnOk result (out.new.items ≡ out.old.items ++ lines.cumulative_text kind merge) }
{
    out.extend_from_slice(b" cumulative ")?;
    out.extend_from_slice(kind_word(kind))?;
    append_head(out, b" by block ", merge as usize)?;
    Ok(())
}

fn append_versioned(out: &mut Vec<u8>, kind: ValueKind) -> Result<(), AllocError>
    ensures { OnOk result (out.new.items ≡
        out.old.items ++ (codes " versioned " ++ lines.kind_word kind)) }
{
    out.extend_from_slice(b" versioned ")?;
    out.extend_from_slice(kind_word(kind))
}

/// Appends whether a variable is cumulative, its kind, and by which block it is merged.
fn append_merge(out: &mut Vec<u8>, var: &CodeVar) -> Result<(), AllocError>
    ensures { OnOk result (out.new.items ≡ out.old.items
        ++ lines.merge_text var.now.cumulative var.now.kind var.now.merge) }
{
    if var.cumulative {
        append_cumulative(out, var.kind, var.merge)
    } else {
        append_versioned(out, var.kind)
    }
}

fn append_cells(out: &mut Vec<u8>, var: &CodeVar) -> Result<(), AllocError>
    ensures { OnOk result (out.new.items ≡
        out.old.items ++ lines.cells_text var.now.array var.now.cells) }
{
    if !var.array {
        return Ok(());
    }
    out.extend_from_slice(b" cells ")?;
    append_number(out, var.cells as u64)
}

/// Appends the word of a table, and a number in it.
fn append_head(out: &mut Vec<u8>, word: &[u8], n: usize) -> Result<(), AllocError>
    ensures { OnOk result (out.new.items ≡ out.old.items ++ (word.now ++ decimal n)) }
{
    out.extend_from_slice(word)?;
    append_number(out, n as u64)
}

/// Appends the number and the name of a variable.
#[tactic(auto, unfolding(crate::specs::Listing::var_head))]
fn append_var_head(out: &mut Vec<u8>, n: usize, var: &CodeVar) -> Result<(), AllocError>
    ensures { OnOk result (out.new.items ≡ out.old.items ++ lines.var_head n var.now) }
{
    append_head(out, b"var ", n)?;
    out.push(b' ')?;
    out.extend_from_slice(var.name.as_slice())?;
    Ok(())
}

/// Appends the start value of a variable, and ends its line.
#[tactic(auto, unfolding(crate::specs::Listing::var_end))]
fn append_var_end(out: &mut Vec<u8>, var: &CodeVar) -> Result<(), AllocError>
    ensures { OnOk result (out.new.items ≡ out.old.items ++ lines.var_end var.now) }
{
    out.extend_from_slice(b" start ")?;
    append_start(out, var.kind, var.start)?;
    out.push(b'\n')?;
    Ok(())
}

/// Appends the line of a variable.
#[tactic(auto, unfolding(crate::specs::Listing::var_line))]
fn append_var(out: &mut Vec<u8>, n: usize, var: &CodeVar) -> Result<(), AllocError>
    ensures { OnOk result (out.new.items ≡ out.old.items ++ lines.var_line n var.now) }
{
    append_var_head(out, n, var)?;
    append_merge(out, var)?;
    append_cells(out, var)?;
    append_var_end(out, var)?;
    Ok(())
}

/// Appends the line of a text.
#[tactic(auto, unfolding(crate::specs::Listing::text_line))]
fn append_text(out: &mut Vec<u8>, n: usize, text: &[u8]) -> Result<(), AllocError>
    ensures { OnOk result (out.new.items ≡ out.old.items ++ lines.text_line n text.now) }
{
    append_head(out, b"text ", n)?;
    out.extend_from_slice(b" \"")?;
    out.extend_from_slice(text)?;
    out.extend_from_slice(b"\"\n")
}

fn append_item(out: &mut Vec<u8>, item: LayoutItem) -> Result<(), AllocError>
    ensures { OnOk result (out.new.items ≡ out.old.items ++ lines.item_text item) }
{
    match item {
        LayoutItem::Int => out.extend_from_slice(b" int"),
        LayoutItem::Bool => out.extend_from_slice(b" bool"),
        LayoutItem::Text(n) => append_head(out, b" text ", n as usize),
    }
}

fn append_items(out: &mut Vec<u8>, items: &[LayoutItem]) -> Result<(), AllocError>
    ensures { OnOk result (out.new.items ≡ out.old.items ++ flat_map lines.item_text items.now) }
{
    for item in items {
        append_item(out, *item)?;
    }
    Ok(())
}

/// Appends the line of a layout.
#[tactic(auto, unfolding(crate::specs::Listing::layout_line))]
fn append_layout(out: &mut Vec<u8>, n: usize, items: &[LayoutItem]) -> Result<(), AllocError>
    ensures { OnOk result (out.new.items ≡ out.old.items ++ lines.layout_line n items.now) }
{
    append_head(out, b"layout ", n)?;
    append_items(out, items)?;
    out.push(b'\n')?;
    Ok(())
}

fn instr_name(instr: Instr) -> &'static [u8]
    ensures { result.now ≡ lines.instr_name instr }
{
    match instr {
        Instr::PushInt(_) => b"PushInt",
        Instr::PushBool(_) => b"PushBool",
        Instr::PushNone => b"PushNone",
        Instr::LoadLocal(_) => b"LoadLocal",
        Instr::StoreLocal(_) => b"StoreLocal",
        Instr::LoadShared(_) => b"LoadShared",
        Instr::StoreShared(_) => b"StoreShared",
        Instr::LoadCell(_) => b"LoadCell",
        Instr::StoreCell(_) => b"StoreCell",
        Instr::CheckCell(_) => b"CheckCell",
        Instr::LoadInput => b"LoadInput",
        Instr::CountInput => b"CountInput",
        Instr::Add => b"Add",
        Instr::Sub => b"Sub",
        Instr::Mul => b"Mul",
        Instr::Div => b"Div",
        Instr::Rem => b"Rem",
        Instr::Neg => b"Neg",
        Instr::Not => b"Not",
        Instr::Eq => b"Eq",
        Instr::Ne => b"Ne",
        Instr::Lt => b"Lt",
        Instr::Le => b"Le",
        Instr::Gt => b"Gt",
        Instr::Ge => b"Ge",
        Instr::Jump(_) => b"Jump",
        Instr::JumpIfFalse(_) => b"JumpIfFalse",
        Instr::JumpIfTrue(_) => b"JumpIfTrue",
        Instr::Apply(_) => b"Apply",
        Instr::Charge(_) => b"Charge",
        Instr::Call(_) => b"Call",
        Instr::Fork(_) => b"Fork",
        Instr::Join => b"Join",
        Instr::Print(_) => b"Print",
        Instr::Assert => b"Assert",
        Instr::Return => b"Return",
        Instr::Pop => b"Pop",
        Instr::TryJoin => b"TryJoin",
    }
}

fn append_word(out: &mut Vec<u8>, word: &[u8]) -> Result<(), AllocError>
    ensures { OnOk result (out.new.items ≡ out.old.items ++ (codes " " ++ word.now)) }
{
    out.push(b' ')?;
    out.extend_from_slice(word)
}

fn append_operand(out: &mut Vec<u8>, n: u64) -> Result<(), AllocError>
    ensures { OnOk result (out.new.items ≡ out.old.items ++ (codes " " ++ decimal n)) }
{
    out.push(b' ')?;
    append_number(out, n)
}

fn append_signed(out: &mut Vec<u8>, n: i64) -> Result<(), AllocError>
    ensures { OnOk result (out.new.items ≡ out.old.items ++ (codes " " ++ signed_decimal n)) }
{
    out.push(b' ')?;
    append_decimal(out, n)
}

/// Appends the operand of an instruction, with a space in front of it.
fn append_operand_of(out: &mut Vec<u8>, instr: Instr) -> Result<(), AllocError>
    ensures { OnOk result (out.new.items ≡ out.old.items ++ lines.operand_text instr) }
{
    match instr {
        Instr::PushInt(n) => append_signed(out, n),
        Instr::PushBool(b) => append_word(out, truth_word(b)),
        Instr::LoadLocal(n) => append_operand(out, n as u64),
        Instr::StoreLocal(n) => append_operand(out, n as u64),
        Instr::LoadShared(var) => append_operand(out, var as u64),
        Instr::StoreShared(var) => append_operand(out, var as u64),
        Instr::LoadCell(var) => append_operand(out, var as u64),
        Instr::StoreCell(var) => append_operand(out, var as u64),
        Instr::CheckCell(var) => append_operand(out, var as u64),
        Instr::Jump(to) => append_operand(out, to as u64),
        Instr::JumpIfFalse(to) => append_operand(out, to as u64),
        Instr::JumpIfTrue(to) => append_operand(out, to as u64),
        Instr::Apply(block) => append_operand(out, block as u64),
        Instr::Charge(line) => append_operand(out, line as u64),
        Instr::Call(block) => append_operand(out, block as u64),
        Instr::Fork(block) => append_operand(out, block as u64),
        Instr::Print(layout) => append_operand(out, layout as u64),
        _ => Ok(()),
    }
}

/// Appends the line of an instruction.
#[tactic(auto, unfolding(crate::specs::Listing::instr_line))]
fn append_instr(out: &mut Vec<u8>, n: usize, instr: Instr) -> Result<(), AllocError>
    ensures { OnOk result (out.new.items ≡ out.old.items ++ lines.instr_line n instr) }
{
    append_number(out, n as u64)?;
    append_word(out, instr_name(instr))?;
    append_operand_of(out, instr)?;
    out.push(b'\n')?;
    Ok(())
}

fn class_word(class: BlockClass) -> &'static [u8]
    ensures { result.now ≡ lines.class_word class }
{
    match class {
        BlockClass::Fun => b"fun",
        BlockClass::Merge => b"merge",
        BlockClass::Proc => b"proc",
        BlockClass::Main => b"main",
    }
}

fn result_word(kind: Option<ValueKind>) -> &'static [u8]
    ensures { result.now ≡ lines.result_word kind }
{
    match kind {
        Some(kind) => kind_word(kind),
        None => b"none",
    }
}

fn append_locals(out: &mut Vec<u8>, kinds: &[ValueKind]) -> Result<(), AllocError>
    ensures { OnOk result (out.new.items ≡ out.old.items ++ flat_map lines.local_text kinds.now) }
{
    for kind in kinds {
        append_word(out, kind_word(*kind))?;
    }
    Ok(())
}

/// Appends the number and the class of a block.
#[tactic(auto, unfolding(crate::specs::Listing::block_head))]
fn append_block_head(out: &mut Vec<u8>, n: usize, block: &CodeBlock) -> Result<(), AllocError>
    ensures { OnOk result (out.new.items ≡ out.old.items ++ lines.block_head n block.now) }
{
    append_head(out, b"block ", n)?;
    append_word(out, class_word(block.class))?;
    Ok(())
}

/// Appends the parameters and the result of a block.
#[tactic(auto, unfolding(crate::specs::Listing::block_shape))]
fn append_block_shape(out: &mut Vec<u8>, block: &CodeBlock) -> Result<(), AllocError>
    ensures { OnOk result (out.new.items ≡ out.old.items ++ lines.block_shape block.now) }
{
    append_head(out, b" params ", block.params as usize)?;
    out.extend_from_slice(b" result ")?;
    out.extend_from_slice(result_word(block.result))?;
    Ok(())
}

/// Appends the line of a block.
#[tactic(auto, unfolding(crate::specs::Listing::block_line))]
fn append_block_line(out: &mut Vec<u8>, n: usize, block: &CodeBlock) -> Result<(), AllocError>
    ensures { OnOk result (out.new.items ≡ out.old.items ++ lines.block_line n block.now) }
{
    append_block_head(out, n, block)?;
    append_block_shape(out, block)?;
    out.extend_from_slice(b" locals")?;
    append_locals(out, block.locals.as_slice())?;
    out.push(b'\n')?;
    Ok(())
}

/// Appends a block, with its instructions.
#[tactic(auto, unfolding(crate::specs::Listing::block_lines))]
fn append_block(out: &mut Vec<u8>, n: usize, block: &CodeBlock) -> Result<(), AllocError>
    ensures { OnOk result (out.new.items ≡ out.old.items ++ lines.block_lines n block.now) }
{
    append_block_line(out, n, block)?;
    append_instrs(out, block.instrs.as_slice())
}

#[tactic(auto, using(crate::proofs::Numbered::numbered_more, crate::proofs::Numbered::numbered_end))]
fn append_instrs(out: &mut Vec<u8>, instrs: &[Instr]) -> Result<(), AllocError>
    ensures { OnOk result (out.new.items ≡
        out.old.items ++ numbered lines.instr_line 0 instrs.now) }
{
    for n in 0..instrs.len() {
        append_instr(out, n, instrs[n])?;
    }
    Ok(())
}

#[tactic(auto, using(crate::proofs::Numbered::numbered_more, crate::proofs::Numbered::numbered_end))]
fn append_vars(out: &mut Vec<u8>, vars: &[CodeVar]) -> Result<(), AllocError>
    ensures { OnOk result (out.new.items ≡ out.old.items ++ numbered lines.var_line 0 vars.now) }
{
    for n in 0..vars.len() {
        append_var(out, n, &vars[n])?;
    }
    Ok(())
}

#[tactic(auto, using(crate::proofs::Numbered::numbered_more, crate::proofs::Numbered::numbered_end))]
fn append_texts(out: &mut Vec<u8>, texts: &[Bytes]) -> Result<(), AllocError>
    ensures { OnOk result (out.new.items ≡ out.old.items ++ numbered lines.text_line 0 texts.now) }
{
    for n in 0..texts.len() {
        append_text(out, n, texts[n].as_slice())?;
    }
    Ok(())
}

#[tactic(auto, using(crate::proofs::Numbered::numbered_more, crate::proofs::Numbered::numbered_end))]
fn append_layouts(out: &mut Vec<u8>, layouts: &[Items<LayoutItem>]) -> Result<(), AllocError>
    ensures { OnOk result (out.new.items ≡
        out.old.items ++ numbered lines.layout_line 0 layouts.now) }
{
    for n in 0..layouts.len() {
        append_layout(out, n, layouts[n].as_slice())?;
    }
    Ok(())
}

#[tactic(auto, using(crate::proofs::Numbered::numbered_more, crate::proofs::Numbered::numbered_end))]
fn append_blocks(out: &mut Vec<u8>, blocks: &[CodeBlock]) -> Result<(), AllocError>
    ensures { OnOk result (out.new.items ≡
        out.old.items ++ numbered lines.block_lines 0 blocks.now) }
{
    for n in 0..blocks.len() {
        append_block(out, n, &blocks[n])?;
    }
    Ok(())
}

/// The text of code: a line with the version of its file, and then its variables, texts, layouts
/// and blocks, one after another, a line for each and for each instruction.
#[tactic(auto, unfolding(crate::specs::Listing::listing))]
pub fn disassemble(alloc: Global, code: &Code) -> Result<Vec<u8>, AllocError>
    ensures { IfOk result (λ text. text.items ≡ listing code.now) }
{
    let mut out = Vec::new(alloc);
    append_head(
        &mut out,
        b"REVC ",
        version_number(version_for(code)) as usize,
    )?;
    out.push(b'\n')?;
    append_vars(&mut out, code.vars.as_slice())?;
    append_texts(&mut out, code.texts.as_slice())?;
    append_layouts(&mut out, code.layouts.as_slice())?;
    append_blocks(&mut out, code.blocks.as_slice())?;
    Ok(out)
}
