//! The widths of the numbers in code. A reference to code does not tell of what lies inside of it
//! that it has the range of its type, so it is read once.

ghost use Rattle.std.specs.Prelude.{All};
ghost use Rattle.code_file.specs.Laws.{Is8, Is16, Is32, IsBlock, IsInstr, IsItem};
ghost use Rattle.code_file.specs.Laws.{NumbersFit, VarFits};

use rev_code::{Code, CodeBlock, CodeVar, Instr, LayoutItem};
use rev_num::Items;

fn note_8(n: u8)
    ensures { Is8 n }
{}

fn note_16(n: u16)
    ensures { Is16 n }
{}

fn note_32(n: u32)
    ensures { Is32 n }
{}

/// Looks at an instruction: its operand has the width of its type.
fn note_instr(x: &Instr)
    ensures { IsInstr x.now }
{
    match *x {
        Instr::PushInt(_n) => {}
        Instr::LoadLocal(n) => note_8(n),
        Instr::StoreLocal(n) => note_8(n),
        Instr::LoadShared(n) => note_16(n),
        Instr::StoreShared(n) => note_16(n),
        Instr::LoadCell(n) => note_16(n),
        Instr::StoreCell(n) => note_16(n),
        Instr::CheckCell(n) => note_16(n),
        Instr::Jump(n) => note_32(n),
        Instr::JumpIfFalse(n) => note_32(n),
        Instr::JumpIfTrue(n) => note_32(n),
        Instr::Apply(n) => note_16(n),
        Instr::Call(n) => note_16(n),
        Instr::Fork(n) => note_16(n),
        Instr::Charge(n) => note_32(n),
        Instr::Print(n) => note_32(n),
        _ => {}
    }
}

fn note_instrs(instrs: &[Instr])
    ensures { All IsInstr instrs.now }
{
    for x in instrs {
        note_instr(x);
    }
}

fn note_block(block: &CodeBlock)
    ensures { IsBlock block.now }
{
    let _params = block.params;
    note_instrs(block.instrs.as_slice());
}

fn note_blocks(blocks: &[CodeBlock])
    ensures { All IsBlock blocks.now }
{
    for block in blocks {
        note_block(block);
    }
}

fn note_item(item: &LayoutItem)
    ensures { IsItem item.now }
{
    match *item {
        LayoutItem::Text(n) => note_32(n),
        _ => {}
    }
}

fn note_layout(items: &[LayoutItem])
    ensures { All IsItem items.now }
{
    for item in items {
        note_item(item);
    }
}

fn note_layouts(layouts: &[Items<LayoutItem>])
    ensures { All (All IsItem) layouts.now }
{
    for layout in layouts {
        note_layout(layout.as_slice());
    }
}

fn note_var(var: &CodeVar)
    ensures { VarFits var.now }
{
    let _cells = var.cells;
    let _start = var.start;
    let _merge = var.merge;
}

fn note_vars(vars: &[CodeVar])
    ensures { All VarFits vars.now }
{
    for var in vars {
        note_var(var);
    }
}

/// Looks at each number in code: each has the width of its field.
pub(crate) fn note_widths(code: &Code)
    ensures { NumbersFit code.now }
{
    note_vars(code.vars.as_slice());
    note_layouts(code.layouts.as_slice());
    note_blocks(code.blocks.as_slice());
}
