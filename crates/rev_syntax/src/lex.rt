//! The tokens of a text.
ghost use Rattle.std.specs.Prelude.{◌≡◌, ◌≢◌, ◌⊎◌, ◌++◌, ◌<◌, ◌^◌, List};
ghost use Rattle.std.specs.Prelude.{length, All, IfOk, IfErr, OnOk, MatchResult};
ghost use Rattle.rev_syntax.specs.declared.token.Token.{Token};
ghost use Rattle.rev_syntax.specs.declared.scan.LexFault.{LexFault};
ghost use Rattle.rev_syntax.specs.Tokens.{IsTokens, IsFirstFault, Ascend, IsToken, token_of};

use crate::scan::{LexFault, next_piece};
use crate::token::{PieceKind, Token};
use std::alloc::Global;

fn keep(tokens: &mut Vec<Token>, kind: PieceKind, start: u32, end: u32) -> Result<(), LexFault>
    ensures ok { OnOk result (tokens.new.items ≡ tokens.old.items ++ token_of kind start end) }
    ensures err { IfErr result (λ f. f ≡ LexFault.OutOfMemory) }
{
    if let PieceKind::Token(kind) = kind {
        tokens.push(Token { kind, start, end })?;
    }
    Ok(())
}

/// The tokens of a text, or its first fault. White space and comments separate tokens, and each
/// piece is the longest that fits.
pub fn tokens(alloc: Global, bytes: &[u8]) -> Result<Vec<Token>, LexFault>
    requires { length bytes.now < 2 ^ 32 }
    ensures tokens { IfOk result (λ ts. IsTokens bytes.now ts.items) }
    ensures ascend { IfOk result (λ ts. Ascend 0 ts.items (length bytes.now)) }
    ensures slices { IfOk result (λ ts. All (IsToken bytes.now) ts.items) }
    ensures fault { IfErr result (λ f. f ≢ LexFault.OutOfMemory → IsFirstFault bytes.now f) }

    // There is no other answer, but for want of memory.
    ensures only_list { (us : List Token) → IsTokens bytes.now us →
        MatchResult result (λ ts. ts.items ≡ us) (λ f. f ≡ LexFault.OutOfMemory) }
    ensures only_fault { (g : LexFault) → IsFirstFault bytes.now g →
        MatchResult result (λ _. ⊥) (λ f. (f ≡ g) ⊎ (f ≡ LexFault.OutOfMemory)) }
{
    let mut tokens = Vec::new(alloc);
    let mut at = 0;
    while at < bytes.len() {
        let cut = next_piece(at as u32, &bytes[at..])?;
        let end = at + cut.length;
        keep(&mut tokens, cut.kind, at as u32, end as u32)?;
        at = end;
    }
    Ok(tokens)
}
