//! The tokens that are left.
ghost use Rattle.std.specs.Prelude.{◌≡◌, length};
ghost use Rattle.rev_expressions.specs.Outcome as spec;
ghost use Rattle.rev_expressions.specs.Classes.{class_of, fixed, is_same};
ghost use Rattle.rev_expressions.specs.Parse.{expected, name_comes, sign_comes};
ghost use Rattle.rev_expressions.specs.Reads.{Reads, IsWithin, same};

use rev_syntax::{Fixed, Token, TokenKind};
use std::alloc::{AllocError, AllocFailed};

/// Why a text has no tree, with the cursor at the place; or want of memory, which says nothing of
/// the text.
#[derive(Clone, Copy, Drop)]
pub enum TreeFault {
    /// What is parsed does not go on with the next token, or with the end.
    Unexpected,
    /// The next token opens a level too many.
    TooDeep,
    OutOfMemory,
}

impl From<AllocError> for TreeFault {
    ghost use Rattle.std.specs.Prelude.{◌≡◌};
    ghost use Rattle.rev_expressions.specs.declared.cursor.TreeFault.{TreeFault};

    ghost from_gives = { λ _ f. f ≡ TreeFault.OutOfMemory };

    fn from(_: AllocError) -> TreeFault {
        TreeFault::OutOfMemory
    }
}

impl<T: Drop> From<AllocFailed<T>> for TreeFault {
    ghost use Rattle.std.specs.Prelude.{◌≡◌};
    ghost use Rattle.rev_expressions.specs.declared.cursor.TreeFault.{TreeFault};

    ghost from_gives = { λ _ f. f ≡ TreeFault.OutOfMemory };

    fn from(_: AllocFailed<T>) -> TreeFault {
        TreeFault::OutOfMemory
    }
}

/// The tokens of a text that are not read yet.
#[derive(Drop)]
pub struct Cursor<'a> {
    pub rest: &'a [Token],
}

impl<'a> Cursor<'a> {
    /// How many tokens are left.
    pub fn left(&self) -> usize
        ensures { result ≡ length self.now.rest.now }
    {
        self.rest.len()
    }

    /// The next token, if one is left.
    pub fn peek(&self) -> Option<Token>
        ensures { result ≡ spec.next self.now.rest.now }
    {
        match self.rest {
            [token, ..] => Some(*token),
            [] => None,
        }
    }

    /// Goes behind the next token; at the end it stays there.
    pub fn advance(&mut self)
        ensures { self.new.rest.now ≡ spec.after self.old.rest.now }
    {
        if let [_, rest @ ..] = self.rest {
            self.rest = rest;
        }
    }

    /// Whether the next token is this word or sign.
    pub fn is_at(&self, sign: Fixed) -> bool
        ensures { result ≡ sign_comes sign self.now.rest.now }
    {
        match self.peek() {
            Some(token) => is_sign(token.kind, sign),
            None => false,
        }
    }

    /// Whether the next token is a name.
    pub fn is_at_name(&self) -> bool
        ensures { result ≡ name_comes self.now.rest.now }
    {
        match self.peek() {
            Some(token) => matches!(token.kind, TokenKind::Name),
            None => false,
        }
    }

    /// Reads this word or sign.
    pub fn expect(&mut self, sign: Fixed) -> Result<(), TreeFault>
        ensures { Reads (expected sign self.old.rest.now) same result self.new.rest.now }
    {
        if !self.is_at(sign) {
            return Err(TreeFault::Unexpected);
        }
        self.advance();
        Ok(())
    }
}

/// Whether a token of this kind is this word or sign.
fn is_sign(kind: TokenKind, sign: Fixed) -> bool
    ensures { result ≡ is_same (fixed sign) (class_of kind) }
{
    match kind {
        TokenKind::Fixed(found) => sign == found,
        _ => false,
    }
}

/// The levels that are left after one more, if one may be opened.
pub fn within(levels: u32) -> Result<u32, TreeFault>
    ensures { IsWithin levels result }
{
    if levels == 0 {
        Err(TreeFault::TooDeep)
    } else {
        Ok(levels - 1)
    }
}
