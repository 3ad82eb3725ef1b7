//! Prints.

ghost use Rattle.std.specs.Prelude.{◌≡◌, ◌<◌, ◌≤◌, ◌+◌, ◌-◌, ◌^◌, ◌++◌};
ghost use Rattle.std.specs.Prelude.{[], ℕ, IfOk, List};
ghost use Rattle.std.specs.Prelude.{Option, Some, length, slice_get, slice_index_or};
ghost use Rattle.rev_code.specs.declared.code.Instr.TheVariants as i;
ghost use Rattle.rev_code.specs.State.{State};
ghost use Rattle.rev_code.specs.declared.code.LayoutItem.{LayoutItem};
ghost use Rattle.leg_run.specs.Changes.{Printed};
ghost use Rattle.leg_run.specs.Ends.{GoesOn};
ghost use Rattle.leg_run.specs.Printed.{bytes_from, gap_at, item_bytes, width_of, widths};
ghost use Rattle.leg_run.specs.Standing.{Stands};

use crate::revision::Run;
use crate::setting::CodeSetting;
use rev_code::{Code, CodeBlock, LayoutItem};
use rev_num::{Bytes, append_decimal, int_of_word};
use std::alloc::AllocError;

/// The word at a place, and 0 behind the end.
fn word_at(words: &[u64], at: usize) -> u64
    ensures { result ≡ slice_index_or words.now at 0 }
{
    if at < words.len() { words[at] } else { 0 }
}

fn item_at(items: &[LayoutItem], at: usize) -> LayoutItem
    requires { at < length items.now }
    ensures { slice_get items.now at ≡ Some result }
{
    items[at]
}

/// How many words an item takes.
fn width(item: LayoutItem) -> usize
    ensures value { result ≡ width_of item }
    ensures few { result ≤ 1 }
{
    match item {
        LayoutItem::Text(_) => 0,
        LayoutItem::Int => 1,
        LayoutItem::Bool => 1,
    }
}

/// How many words the items of a layout take.
fn values_of(items: &[LayoutItem]) -> usize
    ensures { result ≡ widths items.now }
{
    let mut count = 0;
    for at in 0..items.len() {
        count += width(item_at(items, at));
    }
    count
}

/// Appends what stands for an item.
fn append_item(
    text: &mut Vec<u8>,
    texts: &[Bytes],
    item: LayoutItem,
    word: u64,
) -> Result<(), AllocError>
    ensures { IfOk result (λ _. text.new.items ≡ text.old.items ++ item_bytes texts.now item word) }
{
    match item {
        LayoutItem::Text(n) => match texts.get(n as usize) {
            None => Ok(()),
            Some(t) => text.extend_from_slice(t.as_slice()),
        },
        LayoutItem::Int => append_decimal(text, int_of_word(word)),
        LayoutItem::Bool => {
            if word == 0 {
                text.extend_from_slice(b"false")
            } else {
                text.extend_from_slice(b"true")
            }
        },
    }
}

/// Appends a space, but for the first item.
fn append_gap(text: &mut Vec<u8>, n: usize) -> Result<(), AllocError>
    ensures { IfOk result (λ _. text.new.items ≡ text.old.items ++ gap_at n) }
{
    if n > 0 {
        text.push(b' ')?;
    }
    Ok(())
}

/// Appends what stands for the items of a layout, whose values lie from `first` on.
fn append_items(
    text: &mut Vec<u8>,
    texts: &[Bytes],
    items: &[LayoutItem],
    words: &[u64],
    first: usize,
) -> Result<(), AllocError>
    requires { first ≤ length words.now }
    ensures { IfOk result (λ _. text.new.items
        ≡ text.old.items ++ bytes_from [] texts.now items.now words.now first) }
{
    let mut at = first;
    for n in 0..items.len() {
        let item = item_at(items, n);
        append_gap(text, n)?;
        append_item(text, texts, item, word_at(words, at))?;
        at += width(item);
    }
    Ok(())
}

/// The items of a layout.
fn layout_at(code: &Code, n: u32) -> &[LayoutItem]
    requires { (items : List LayoutItem) × (slice_get code.now.layouts n ≡ Some items) }
    ensures { slice_get code.now.layouts n ≡ Some result.now }
{
    code.layouts.as_slice()[n as usize].as_slice()
}

/// Prints items, whose values are on the stack.
fn print_items(run: &mut Run, texts: &[Bytes], items: &[LayoutItem]) -> Result<(), AllocError>
    requires top { run.old.registers.top ≤ length run.old.words.items }
    requires enough { widths items.now ≤ run.old.registers.top }
    requires place { run.old.registers.at + 1 < 2 ^ 32 }
    ensures { IfOk result (λ _. Printed texts.now items.now run.old run.new) }
{
    let first = run.registers.top - values_of(items);
    append_items(&mut run.text, texts, items, run.words.as_slice(), first)?;
    run.text.push(b'\n')?;
    run.registers.top = first;
    run.registers.at += 1;
    Ok(())
}

/// Prints a line.
pub fn print(setting: &CodeSetting, run: &mut Run, b: &CodeBlock, n: u32) -> Result<(), AllocError>
    requires block { slice_get setting.now.code.blocks run.old.registers.block ≡ Some b.now }
    requires instr { slice_get b.now.instrs run.old.registers.at ≡ Some (i.Print n) }
    requires stands { (seen : ℕ → ℕ) × (root : ℕ → Option ℕ) × (c : State ℕ)
        × Stands setting.now.code setting.now.inputs.items setting.now.share run.old seen root c }
    ensures { IfOk result (λ _. (seen : ℕ → ℕ) (root : ℕ → Option ℕ) (c : State ℕ)
        → Stands setting.now.code setting.now.inputs.items setting.now.share run.old seen root c
        → GoesOn setting.now.code setting.now.inputs.items setting.now.share c run.new seen root) }
{
    let items = layout_at(&setting.code, n);
    print_items(run, setting.code.texts.as_slice(), items)?;
    Ok(())
}
