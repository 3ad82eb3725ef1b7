//! The texts and the layout of a print.

ghost use Rattle.std.specs.Prelude.{◌≡◌, ◌<◌, ◌+◌, ◌^◌, ◌++◌, ◌∷◌, [], IfOk, OnOk, length, map};
ghost use Rattle.rev_syntax.specs.View.{print_item};
ghost use Rattle.rev_kinds.specs.Walk.{names_of};
ghost use Rattle.code_rules.specs.Shapes.{kind_or_int};
ghost use Rattle.code_generation.specs.Prints.{items_texts, layout_of, value_item};

use rev_code::LayoutItem;
use rev_kinds::{Checker, Locals};
use rev_num::{Bytes, Items, ValueKind};
use rev_syntax::Item;
use std::alloc::{AllocError, Global};

/// The kind of a local: a `let` of a program that keeps the rules has one.
pub fn kind_of_local(kind: Option<ValueKind>) -> ValueKind
    ensures { result ≡ kind_or_int kind }
{
    match kind {
        Some(kind) => kind,
        None => ValueKind::Int,
    }
}

/// How a value of this kind is printed.
fn item_of_value(kind: Option<ValueKind>) -> LayoutItem
    ensures { result ≡ value_item kind }
{
    match kind {
        Some(ValueKind::Bool) => LayoutItem::Bool,
        Some(ValueKind::Int) => LayoutItem::Int,
        Some(ValueKind::Rev) => LayoutItem::Int,
        None => LayoutItem::Int,
    }
}

/// Lists an item of a print: a text, and its number, or the kind of a value.
fn list_item(
    alloc: Global,
    checker: &Checker,
    locals: &Locals,
    texts: &mut Vec<Bytes>,
    layout: &mut Vec<LayoutItem>,
    item: &Item,
) -> Result<(), AllocError>
    requires { length texts.old.items < 2 ^ 32 }
    ensures texts { OnOk result
        (texts.new.items ≡ texts.old.items ++ items_texts (print_item item.now ∷ [])) }
    ensures layout { OnOk result
        (layout.new.items
        ≡ layout.old.items ++ layout_of (names_of checker.now) locals.now
        (length texts.old.items) (print_item item.now ∷ [])) }
{
    match item {
        Item::Text { bytes, .. } => {
            layout.push(LayoutItem::Text(texts.len() as u32))?;
            texts.push(Items::from_vec(Vec::from_slice(alloc, bytes)?))?;
            Ok(())
        }
        Item::Value(e) => {
            layout.push(item_of_value(checker.expression(locals, e).kind))?;
            Ok(())
        }
    }
}

/// Lists the texts of a print, and gives its layout.
#[tactic(auto, using(typed_programs::proofs::Appends::appends))]
pub fn list_items(
    alloc: Global,
    checker: &Checker,
    locals: &Locals,
    texts: &mut Vec<Bytes>,
    items: &[Item],
) -> Result<Items<LayoutItem>, AllocError>
    requires { length texts.old.items + length (items_texts (map print_item items.now)) < 2 ^ 32 }
    ensures texts { OnOk result
        (texts.new.items ≡ texts.old.items ++ items_texts (map print_item items.now)) }
    ensures layout { IfOk result
        (λ layout. layout
        ≡ layout_of (names_of checker.now) locals.now (length texts.old.items)
        (map print_item items.now)) }
{
    let mut layout = Vec::new(alloc);
    for item in items {
        list_item(alloc, checker, locals, texts, &mut layout, item)?;
    }
    Ok(Items::from_vec(layout))
}
