//! The parser of whole programs, with their faults.
ghost use Rattle.std.specs.Prelude.{◌≡◌, ◌<◌, ◌^◌, ◌-◌, All, length};
ghost use Rattle.rev_parse.specs.Verdicts.{place_of};
ghost use Rattle.rev_parse.specs.Parsing.{Parses};
ghost use Rattle.rev_syntax.specs.Tokens.{IsToken};

use crate::declaration::program;
use rev_expressions::{Cursor, SourceText, TreeFault};
use rev_syntax::{Program, Token};
use std::alloc::{AllocError, Global};

/// How many levels may be open at once. Each opening bracket opens a level up to its closing one,
/// and each unary operator to the end of its operand.
pub const MOST_LEVELS: u32 = 200;

/// Why tokens are no program, with the offset of the first token that is at fault, or of the end of
/// the text; or want of memory, which says nothing of them.
#[derive(Clone, Copy, Drop)]
pub enum SyntaxFault {
    /// No program goes on like this.
    Unexpected { at: u32 },
    /// More levels are opened than may be open at once.
    TooDeep { at: u32 },
    OutOfMemory,
}

impl From<AllocError> for SyntaxFault {
    ghost use Rattle.std.specs.Prelude.{◌≡◌};
    ghost use Rattle.rev_parse.specs.declared.whole.SyntaxFault.{SyntaxFault};

    ghost from_gives = { λ _ f. f ≡ SyntaxFault.OutOfMemory };

    fn from(_: AllocError) -> SyntaxFault {
        SyntaxFault::OutOfMemory
    }
}

/// Where the first token that is left stands, or where the text ends.
fn place(bytes: &[u8], cursor: &Cursor<'_>) -> u32
    requires { length bytes.now < 2 ^ 32 - 1 }
    ensures { result ≡ place_of bytes.now cursor.now.rest.now }
{
    match cursor.peek() {
        Some(token) => token.start,
        None => bytes.len() as u32,
    }
}

/// The program that a text is, of which these are the tokens, or their first fault. The tree of a
/// text of at most 1,048,576 bytes is small.
pub fn parse(alloc: Global, bytes: &[u8], tokens: &[Token]) -> Result<Program, SyntaxFault>
    requires small { length bytes.now < 2 ^ 32 - 1 }
    requires tokens { All (IsToken bytes.now) tokens.now }
    ensures { Parses bytes.now tokens.now result }
{
    let source = SourceText::new(alloc, bytes)?;
    let mut cursor = Cursor { rest: tokens };
    let found = program(&source, &mut cursor, MOST_LEVELS);
    let at = place(bytes, &cursor);
    let left = cursor.left();
    match found {
        Ok(program) => {
            if left == 0 {
                Ok(program)
            } else {
                Err(SyntaxFault::Unexpected { at })
            }
        }
        Err(TreeFault::Unexpected) => Err(SyntaxFault::Unexpected { at }),
        Err(TreeFault::TooDeep) => Err(SyntaxFault::TooDeep { at }),
        Err(TreeFault::OutOfMemory) => Err(SyntaxFault::OutOfMemory),
    }
}
