//! Laws of the tokens of a text.
ghost use Rattle.std.specs.Prelude.{◌≡◌, ◌⊎◌, ℕ, List};
ghost use Rattle.rev_syntax.specs.declared.token.Token.{Token};
ghost use Rattle.rev_syntax.specs.declared.token.TokenKind.{TokenKind};
ghost use Rattle.rev_syntax.specs.declared.scan.LexFault.{LexFault};
ghost use Rattle.rev_syntax.specs.Tokens.{IsTokens, IsFirstFault, IsOfKind, HasTokens, HasFault};

/// A text has no two different lists of tokens.
pub fn one_list()
    ensures { (s : List ℕ) (ts us : List Token) → IsTokens s ts → IsTokens s us → ts ≡ us }
{}

/// A text has no two different first faults, and none where it has tokens.
pub fn one_fault()
    ensures same { (s : List ℕ) (f g : LexFault) → IsFirstFault s f → IsFirstFault s g → f ≡ g }
    ensures apart { (s : List ℕ) (ts : List Token) (f : LexFault) →
        IsTokens s ts → IsFirstFault s f → ⊥ }
{}

/// Each text has tokens or a first fault.
pub fn some_reading()
    ensures { (s : List ℕ) → HasTokens s ⊎ HasFault s }
{}

/// The bytes of a token determine its kind.
pub fn one_kind()
    ensures { (w : List ℕ) (k l : TokenKind) → IsOfKind k w → IsOfKind l w → k ≡ l }
{}
