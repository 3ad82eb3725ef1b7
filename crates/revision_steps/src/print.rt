//! The step of a `print`: one line of the values and texts of its items, behind what the revision has
//! printed.

ghost use Rattle.std.specs.Prelude.{◌≡◌, ◌++◌, IfOk, OnOk, map};
ghost use Rattle.std.specs.List.{flat_map, join_with_byte};
ghost use Rattle.rev_syntax.specs.View.{print_item};
ghost use Rattle.rev_report.specs.Lines.{space};
ghost use Rattle.rev_report.specs.Outcome.{value_text};
ghost use Rattle.revision_calculus.specs.Step as step;
ghost use Rattle.revision_steps.specs.Forms as form;
ghost use Rattle.revision_steps.specs.Owns.{own_event};
ghost use Rattle.revision_steps.specs.Texts.{behind_space, bytes_of, text_of};
ghost use Rattle.revision_state.specs.Views.{given};

use crate::local::Local;
use crate::own::Own;
use rev_num::{Cause, Path, Value};
use rev_report::append_value;
use rev_syntax::Item;
use revision_data::Text;
use revision_state::Setting;
use std::alloc::{AllocError, Global};

/// The text of a value.
fn text_of_value(alloc: Global, value: &Value) -> Result<Vec<u8>, AllocError>
    ensures { IfOk result (λ text. text.items ≡ value_text value.now) }
{
    let mut text = Vec::new(alloc);
    append_value(&mut text, value)?;
    Ok(text)
}

/// Appends texts with one space between two of them.
fn append_texts(line: &mut Text, texts: &[Vec<u8>]) -> Result<(), AllocError>
    ensures { OnOk result
        (line.new ≡ line.old ++ join_with_byte space (map (λ t. t.items) texts.now)) }
{
    match texts {
        [] => Ok(()),
        [first, rest @ ..] => {
            line.append(first)?;
            append_behind_spaces(line, rest)
        }
    }
}

/// Appends each text with a space in front of it.
fn append_behind_spaces(line: &mut Text, texts: &[Vec<u8>]) -> Result<(), AllocError>
    ensures { OnOk result
        (line.new ≡ line.old ++ flat_map behind_space (map (λ t. t.items) texts.now)) }
{
    for text in texts {
        line.push(b' ')?;
        line.append(text)?;
    }
    Ok(())
}

impl<'a> Local<'a> {
    /// The text of an item of a print, or why it has none.
    fn item_text(
        &self,
        alloc: Global,
        setting: &Setting<'a>,
        item: &Item,
    ) -> Result<Result<Vec<u8>, Cause>, AllocError>
        ensures { IfOk result
            (λ a. text_of a ≡ step.item_text (given setting.now) self.now (print_item item.now)) }
    {
        match item {
            Item::Text { at: _, bytes } => Ok(Ok(Vec::from_slice(alloc, bytes)?)),
            Item::Value(e) => match self.value(alloc, setting, e)? {
                Ok(value) => Ok(Ok(text_of_value(alloc, &value)?)),
                Err(cause) => Ok(Err(cause)),
            },
        }
    }

    /// The texts of the items of a print, or why the first that has none has none.
    #[tactic(auto, using(crate::proofs::Collected::one_more, crate::proofs::Collected::prefixed_none))]
    fn item_texts(
        &self,
        alloc: Global,
        setting: &Setting<'a>,
        items: &[Item],
    ) -> Result<Result<Vec<Vec<u8>>, Cause>, AllocError>
        ensures { IfOk result
            (λ a. bytes_of a
            ≡ step.item_texts (given setting.now) self.now (map print_item items.now)) }
    {
        let mut texts = Vec::with_capacity(alloc, items.len())?;
        for item in items {
            match self.item_text(alloc, setting, item)? {
                Ok(text) => texts.push(text)?,
                Err(cause) => return Ok(Err(cause)),
            }
        }
        Ok(Ok(texts))
    }

    /// Appends the line of these texts to what the revision printed.
    fn append_line(&mut self, texts: &[Vec<u8>]) -> Result<(), AllocError>
        ensures { OnOk result
            (self.new
            ≡ record self.old {
              text = self.old.text ++ step.line_of (map (λ t. t.items) texts.now);
            }) }
    {
        append_texts(&mut self.text, texts)?;
        self.text.push(b'\n')?;
        Ok(())
    }

    /// `print items;`
    pub(crate) fn print(
        &mut self,
        alloc: Global,
        setting: &Setting<'a>,
        path: &Path,
        items: &[Item],
    ) -> Result<Own<'a>, AllocError>
        ensures { IfOk result
            (λ n. own_event n self.new
            ≡ form.prints (given setting.now) path.now self.old (map print_item items.now)) }
    {
        match self.item_texts(alloc, setting, items)? {
            Ok(texts) => {
                self.append_line(&texts)?;
                Ok(Own::Moved)
            }
            Err(cause) => self.fail(alloc, path, cause),
        }
    }
}
