//! The text that is parsed.
ghost use Rattle.std.specs.Prelude.{◌≡◌, ◌<◌, ◌^◌, ◌-◌, IfOk, IfSome, IsTrue, length};
ghost use Rattle.rev_expressions.specs.Source.{IsEdge, feeds_from, text_of, word_of};
ghost use Rattle.rev_syntax.specs.Places.{line_of};
ghost use Rattle.rev_syntax.specs.Trees.{text};
ghost use Rattle.rev_syntax.specs.View.{print_item, placed_name};

use rev_syntax::{Item, Name, Token};
use std::alloc::{AllocError, Global};

/// A text, with where its memory comes from and the places of its line feeds.
#[derive(Drop)]
pub struct SourceText<'a> {
    pub alloc: Global,
    pub bytes: &'a [u8],
    feeds: Vec<u32>,
    ghost fed: { feeds.items ≡ feeds_from 0 bytes.now },
    ghost small: { length bytes.now < 2 ^ 32 - 1 },
}

/// The places of the line feeds.
fn feeds_of(alloc: Global, bytes: &[u8]) -> Result<Vec<u32>, AllocError>
    requires { length bytes.now < 2 ^ 32 - 1 }
    ensures { IfOk result (λ v. v.items ≡ feeds_from 0 bytes.now) }
{
    let mut feeds = Vec::new(alloc);
    for at in 0..bytes.len() {
        if bytes[at] == b'\n' {
            feeds.push(at as u32)?;
        }
    }
    Ok(feeds)
}

/// Says yes only where so many of the places stand before `at`, by the last of these and the one
/// behind it.
fn is_edge(feeds: &[u32], count: usize, at: u32) -> bool
    ensures { IsTrue result → IsEdge feeds.now count at }
{
    if count > feeds.len() {
        return false;
    }
    if count > 0 && at <= feeds[count - 1] {
        return false;
    }
    count == feeds.len() || at <= feeds[count]
}

/// How many of the places stand before `at`, if these are so many or one more.
fn edge_near(feeds: &[u32], count: usize, at: u32) -> Option<usize>
    ensures { IfSome result (λ n. IsEdge feeds.now n at) }
{
    if is_edge(feeds, count, at) {
        return Some(count);
    }
    let more = count.saturating_add(1);
    if is_edge(feeds, more, at) {
        return Some(more);
    }
    None
}

impl<'a> SourceText<'a> {
    /// A text, whose line feeds are counted once here.
    pub fn new(alloc: Global, bytes: &'a [u8]) -> Result<SourceText<'a>, AllocError>
        requires { length bytes.now < 2 ^ 32 - 1 }
        ensures { IfOk result (λ s. s.bytes.now ≡ bytes.now) }
    {
        let feeds = feeds_of(alloc, bytes)?;
        Ok(SourceText {
            alloc,
            bytes,
            feeds,
        })
    }

    /// The line of a place, counted from 1.
    pub fn line(&self, at: u32) -> u32
        ensures { result ≡ line_of self.now.bytes.now at }
    {
        let before = self.feeds.partition_point(|feed| *feed < at);
        1 + before as u32
    }

    /// The line of a place, counted from 1. It is found soonest where it is `near` or the next line.
    pub fn line_near(&self, near: u32, at: u32) -> u32
        ensures { result ≡ line_of self.now.bytes.now at }
    {
        match edge_near(&self.feeds, near.saturating_sub(1) as usize, at) {
            Some(before) => 1 + before as u32,
            None => self.line(at),
        }
    }

    /// The name that a token is.
    pub fn name(&self, token: Token) -> Result<Name, AllocError>
        ensures { IfOk result (λ n. placed_name n ≡ word_of self.now.bytes.now token) }
    {
        let from = (token.start as usize).min(self.bytes.len());
        let to = (token.end as usize).min(self.bytes.len()).max(from);
        let text = Vec::from_slice(self.alloc, &self.bytes[from..to])?;
        Ok(Name {
            at: token.start,
            text,
        })
    }

    /// The item that a text in quotes is.
    pub fn text(&self, token: Token) -> Result<Item, AllocError>
        ensures { IfOk result
            (λ i. print_item i ≡ text token.start (text_of self.now.bytes.now token)) }
    {
        let from = (token.start as usize + 1).min(self.bytes.len());
        let to = (token.end as usize)
            .saturating_sub(1)
            .min(self.bytes.len())
            .max(from);
        let bytes = Vec::from_slice(self.alloc, &self.bytes[from..to])?;
        Ok(Item::Text {
            at: token.start,
            bytes,
        })
    }
}
