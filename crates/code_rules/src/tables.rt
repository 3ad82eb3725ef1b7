//! The rules on the tables of code.

ghost use Rattle.std.specs.Prelude.{◌≡◌, nat_le, slice_get};
ghost use Rattle.std.specs.List.{list_all};
ghost use Rattle.rev_code.specs.Step as meaning;
ghost use Rattle.code_rules.specs.Pass as pass;
ghost use Rattle.code_rules.specs.Tables as tables;

use crate::classes::{is_procedure, is_value_class};
use rev_code::{BlockClass, Code, CodeBlock, CodeVar, LayoutItem};
use rev_num::{Bytes, Items, ValueKind, same_kind};

fn is_main(class: BlockClass) -> bool
    ensures { result ≡ tables.is_main class }
{
    matches!(class, BlockClass::Main)
}

/// Whether the last block is `main`, and no other.
fn ends_in_main(blocks: &[CodeBlock]) -> bool
    ensures { result ≡ tables.ends_in_main blocks.now }
{
    if blocks.is_empty() {
        return false;
    }
    let last = blocks.len() - 1;
    for i in 0..last {
        if is_main(blocks[i].class) {
            return false;
        }
    }
    is_main(blocks[last].class)
}

fn is_block(block: &CodeBlock) -> bool
    ensures { result ≡ tables.is_block block.now }
{
    let has_result = block.result.is_some();
    let fits = match block.class {
        BlockClass::Main => block.params == 0 && !has_result,
        BlockClass::Fun => has_result,
        BlockClass::Merge => has_result,
        BlockClass::Proc => true,
    };
    fits && block.params as usize <= block.locals.as_slice().len()
}

#[tactic(auto, using(rev_num::proofs::Lists::all_more, rev_num::proofs::Lists::all_none))]
fn all_blocks(blocks: &[CodeBlock]) -> bool
    ensures { result ≡ list_all tables.is_block blocks.now }
{
    for block in blocks {
        if !is_block(block) {
            return false;
        }
    }
    true
}

fn is_letter(c: u8) -> bool
    ensures { result ≡ tables.is_letter c }
{
    (65 <= c && c <= 90) || (97 <= c && c <= 122) || c == 95
}

fn is_digit(c: u8) -> bool
    ensures { result ≡ tables.is_digit c }
{
    48 <= c && c <= 57
}

fn is_text_byte(c: u8) -> bool
    ensures { result ≡ tables.is_text_byte c }
{
    32 <= c && c <= 126 && c != 34
}

/// Whether each byte can stand in a text: it is from 32 to 126, and not 34.
#[tactic(auto, using(rev_num::proofs::Lists::all_more, rev_num::proofs::Lists::all_none))]
pub fn is_text(text: &[u8]) -> bool
    ensures { result ≡ list_all tables.is_text_byte text.now }
{
    for c in text {
        if !is_text_byte(*c) {
            return false;
        }
    }
    true
}

#[tactic(auto, using(rev_num::proofs::Lists::all_more, rev_num::proofs::Lists::all_none))]
fn all_texts(texts: &[Bytes]) -> bool
    ensures { result ≡ list_all (list_all tables.is_text_byte) texts.now }
{
    for text in texts {
        if !is_text(text.as_slice()) {
            return false;
        }
    }
    true
}

fn is_item(texts: usize, item: LayoutItem) -> bool
    ensures { result ≡ tables.is_item texts item }
{
    match item {
        LayoutItem::Int => true,
        LayoutItem::Bool => true,
        LayoutItem::Text(n) => (n as usize) < texts,
    }
}

#[tactic(auto, using(rev_num::proofs::Lists::all_more, rev_num::proofs::Lists::all_none))]
fn is_layout(texts: usize, items: &[LayoutItem]) -> bool
    ensures { result ≡ list_all (tables.is_item texts) items.now }
{
    for item in items {
        if !is_item(texts, *item) {
            return false;
        }
    }
    true
}

#[tactic(auto, using(rev_num::proofs::Lists::all_more, rev_num::proofs::Lists::all_none))]
fn all_layouts(texts: usize, layouts: &[Items<LayoutItem>]) -> bool
    ensures { result ≡ list_all (list_all (tables.is_item texts)) layouts.now }
{
    for items in layouts {
        if !is_layout(texts, items.as_slice()) {
            return false;
        }
    }
    true
}

fn is_name_byte(c: u8) -> bool
    ensures { result ≡ tables.is_name_byte c }
{
    is_letter(c) || is_digit(c)
}

#[tactic(auto, using(rev_num::proofs::Lists::all_more, rev_num::proofs::Lists::all_none))]
fn are_name_bytes(bytes: &[u8]) -> bool
    ensures { result ≡ list_all tables.is_name_byte bytes.now }
{
    for c in bytes {
        if !is_name_byte(*c) {
            return false;
        }
    }
    true
}

fn is_word(name: &[u8]) -> bool
    ensures { result ≡ tables.is_word name.now }
{
    match name {
        [] => false,
        [c, rest @ ..] => is_letter(*c) && are_name_bytes(rest),
    }
}

fn is_reserved_1(name: &[u8]) -> bool
    ensures { result ≡ tables.is_reserved_1 name.now }
{
    name == b"fun".as_slice()
        || name == b"merge".as_slice()
        || name == b"versioned".as_slice()
        || name == b"cumulative".as_slice()
        || name == b"by".as_slice()
        || name == b"proc".as_slice()
        || name == b"main".as_slice()
        || name == b"int".as_slice()
        || name == b"bool".as_slice()
}

fn is_reserved_2(name: &[u8]) -> bool
    ensures { result ≡ tables.is_reserved_2 name.now }
{
    name == b"rev".as_slice()
        || name == b"let".as_slice()
        || name == b"if".as_slice()
        || name == b"else".as_slice()
        || name == b"while".as_slice()
        || name == b"call".as_slice()
        || name == b"return".as_slice()
        || name == b"rfork".as_slice()
        || name == b"rjoin".as_slice()
}

fn is_reserved_3(name: &[u8]) -> bool
    ensures { result ≡ tables.is_reserved_3 name.now }
{
    name == b"tryjoin".as_slice()
        || name == b"print".as_slice()
        || name == b"assert".as_slice()
        || name == b"true".as_slice()
        || name == b"false".as_slice()
        || name == b"none".as_slice()
        || name == b"input".as_slice()
        || name == b"inputs".as_slice()
        || name == b"pick".as_slice()
}

/// Whether a name is one of the words of the language.
fn is_reserved(name: &[u8]) -> bool
    ensures { result ≡ tables.is_reserved name.now }
{
    is_reserved_1(name) || is_reserved_2(name) || is_reserved_3(name)
}

/// Whether the bytes are a name of the language: a letter or `_`, then letters, digits and `_`, and
/// no word of the language.
pub fn is_name(name: &[u8]) -> bool
    ensures { result ≡ tables.is_name name.now }
{
    is_word(name) && !is_reserved(name)
}

/// Whether a scalar or an array can have so many cells: a scalar has 1, an array 1 or more.
pub fn has_cells(array: bool, cells: u32) -> bool
    ensures { result ≡ tables.has_cells array cells }
{
    if array { cells > 0 } else { cells == 1 }
}

/// Whether the word can stand for a start value of this kind: any for an int, 0 or 1 for a bool, 0
/// for a handle.
pub fn is_start(kind: ValueKind, word: u64) -> bool
    ensures { result ≡ tables.is_start kind word }
{
    match kind {
        ValueKind::Int => true,
        ValueKind::Bool => word <= 1,
        ValueKind::Rev => word == 0,
    }
}

fn is_merge_class(class: BlockClass) -> bool
    ensures { result ≡ tables.is_merge_class class }
{
    matches!(class, BlockClass::Merge)
}

fn are_three_ints(kinds: &[ValueKind]) -> bool
    ensures { result ≡ tables.are_three_ints kinds.now }
{
    match kinds {
        [a, b, c, ..] => {
            same_kind(*a, ValueKind::Int)
                && same_kind(*b, ValueKind::Int)
                && same_kind(*c, ValueKind::Int)
        }
        _ => false,
    }
}

fn is_int_result(result_kind: Option<ValueKind>) -> bool
    ensures { result ≡ tables.is_int_result result_kind }
{
    match result_kind {
        None => false,
        Some(kind) => same_kind(kind, ValueKind::Int),
    }
}

/// Whether the block is a merge of three ints.
fn is_int_merge(blocks: &[CodeBlock], n: usize) -> bool
    ensures { result ≡ tables.is_int_merge (slice_get blocks.now n) }
{
    match blocks.get(n) {
        None => false,
        Some(block) => {
            is_merge_class(block.class)
                && block.params == 3
                && are_three_ints(block.locals.as_slice())
                && is_int_result(block.result)
        }
    }
}

fn merges_well(code: &Code, var: &CodeVar) -> bool
    ensures { result ≡ tables.merges_well code.now var.now }
{
    if var.cumulative {
        same_kind(var.kind, ValueKind::Int)
            && var.merge != 65535
            && is_int_merge(code.blocks.as_slice(), var.merge as usize)
    } else {
        var.merge == 65535
    }
}

fn is_var(code: &Code, var: &CodeVar) -> bool
    ensures { result ≡ tables.is_var code.now var.now }
{
    is_name(var.name.as_slice())
        && has_cells(var.array, var.cells)
        && is_start(var.kind, var.start)
        && merges_well(code, var)
}

#[tactic(auto, using(rev_num::proofs::Lists::all_more, rev_num::proofs::Lists::all_none))]
fn all_vars(code: &Code) -> bool
    ensures { result ≡ list_all (tables.is_var code.now) code.now.vars }
{
    for var in code.vars.as_slice() {
        if !is_var(code, var) {
            return false;
        }
    }
    true
}

/// Whether the last block is `main`, and no other, each block fits its class, each variable has a
/// name, cells, a start value and a merge entry that it can have, each text has bytes of a text,
/// and each layout names texts that there are.
pub fn names_well(code: &Code) -> bool
    ensures { result ≡ tables.names_well code.now }
{
    blocks_well(code) && all_vars(code) && lines_well(code)
}

fn blocks_well(code: &Code) -> bool
    ensures { result ≡ tables.blocks_well code.now }
{
    ends_in_main(code.blocks.as_slice()) && all_blocks(code.blocks.as_slice())
}

fn lines_well(code: &Code) -> bool
    ensures { result ≡ tables.lines_well code.now }
{
    all_texts(code.texts.as_slice())
        && all_layouts(code.texts.as_slice().len(), code.layouts.as_slice())
}

// ---- limits

/// Whether the variables have few enough locations.
fn are_few_locations(vars: &[CodeVar]) -> bool
    ensures { result ≡ nat_le (tables.locations vars.now) tables.most_locations }
{
    let mut total: u64 = 0;
    for var in vars {
        total += var.cells as u64;
        if total > 4096 {
            return false;
        }
    }
    true
}

fn count_procedures(blocks: &[CodeBlock]) -> usize
    ensures { result ≡ tables.count_class meaning.is_procedure blocks.now }
{
    let mut count = 0;
    for block in blocks {
        if is_procedure(block.class) {
            count += 1;
        }
    }
    count
}

fn count_values(blocks: &[CodeBlock]) -> usize
    ensures { result ≡ tables.count_class pass.is_value_class blocks.now }
{
    let mut count = 0;
    for block in blocks {
        if is_value_class(block.class) {
            count += 1;
        }
    }
    count
}

fn is_small_block(block: &CodeBlock) -> bool
    ensures { result ≡ tables.is_small_block block.now }
{
    block.params <= 8
        && block.locals.as_slice().len() <= 64
        && block.instrs.as_slice().len() <= 4_294_967_295
}

#[tactic(auto, using(rev_num::proofs::Lists::all_more, rev_num::proofs::Lists::all_none))]
fn all_small_blocks(blocks: &[CodeBlock]) -> bool
    ensures { result ≡ list_all tables.is_small_block blocks.now }
{
    for block in blocks {
        if !is_small_block(block) {
            return false;
        }
    }
    true
}

fn is_small_layout(items: &Items<LayoutItem>) -> bool
    ensures { result ≡ tables.is_small_layout items.now }
{
    items.as_slice().len() <= 64
}

#[tactic(auto, using(rev_num::proofs::Lists::all_more, rev_num::proofs::Lists::all_none))]
fn all_small_layouts(layouts: &[Items<LayoutItem>]) -> bool
    ensures { result ≡ list_all tables.is_small_layout layouts.now }
{
    for items in layouts {
        if !is_small_layout(items) {
            return false;
        }
    }
    true
}

fn is_small_text(text: &Bytes) -> bool
    ensures { result ≡ tables.is_small_text text.now }
{
    text.as_slice().len() <= 4_294_967_295
}

#[tactic(auto, using(rev_num::proofs::Lists::all_more, rev_num::proofs::Lists::all_none))]
fn all_small_texts(texts: &[Bytes]) -> bool
    ensures { result ≡ list_all tables.is_small_text texts.now }
{
    for text in texts {
        if !is_small_text(text) {
            return false;
        }
    }
    true
}

fn has_small_name(var: &CodeVar) -> bool
    ensures { result ≡ tables.has_small_name var.now }
{
    is_small_text(&var.name)
}

#[tactic(auto, using(rev_num::proofs::Lists::all_more, rev_num::proofs::Lists::all_none))]
fn all_small_names(vars: &[CodeVar]) -> bool
    ensures { result ≡ list_all tables.has_small_name vars.now }
{
    for var in vars {
        if !has_small_name(var) {
            return false;
        }
    }
    true
}

/// Whether the tables keep the limits of the language, and what the counts and lengths of a code
/// file can hold.
pub fn is_small(code: &Code) -> bool
    ensures { result ≡ tables.is_small code.now }
{
    are_few_locations(code.vars.as_slice())
        && count_procedures(code.blocks.as_slice()) <= 256
        && count_values(code.blocks.as_slice()) <= 256
        && code.blocks.as_slice().len() <= 65535
        && all_small_blocks(code.blocks.as_slice())
        && all_small_layouts(code.layouts.as_slice())
        && code.vars.as_slice().len() <= 65535
        && all_small_names(code.vars.as_slice())
        && code.texts.as_slice().len() <= 4_294_967_295
        && all_small_texts(code.texts.as_slice())
        && code.layouts.as_slice().len() <= 4_294_967_295
}
