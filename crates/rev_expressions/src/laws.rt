//! What holds of every grammar that the next token decides.
ghost use Rattle.std.specs.Prelude.{◌≡◌, ℕ, Bool, true, List};
ghost use Rattle.rev_expressions.specs.Form.{Alphabet, Form, Rules};
ghost use Rattle.rev_expressions.specs.Reader.{parser};
ghost use Rattle.rev_expressions.specs.Exact.{Decided, is_decided};
ghost use Rattle.rev_expressions.specs.Theorem.{Verdict};

/// A grammar that the next token decides. `self` is what its values may depend on, as the text of
/// which tokens are slices.
pub trait Grammar {
    /// The tokens, their kinds, and the names of the inner rules.
    ghost alphabet: { Alphabet };

    /// The inner rules, which stand behind tokens that open a level.
    ghost rules: { Self → Rules alphabet };

    /// What a whole text stands for, and the rule for it.
    ghost Whole: { Type 0 };

    ghost whole: { Self → Form alphabet Whole };

    /// All kinds of token, and those with which an inner rule may be gone on with.
    ghost kinds: { List alphabet.Kind };

    ghost goes_on: { alphabet.Inner → alphabet.Kind → Bool };

    /// The next token decides the inner rules and the rule for a whole text.
    ghost decided: { (s : Self) → Decided alphabet (rules s) goes_on kinds };

    ghost whole_decided: { (s : Self) → is_decided alphabet goes_on kinds (whole s) ≡ true };
}

/// The parser of a grammar answers the one value of all tokens, the first place where no value of
/// any nesting goes on as they do, or the first token that opens a level too many.
pub fn parser_is_exact<G: Grammar>()
    ensures { (s : G) (n : ℕ) (ts : List G.alphabet.Token) →
        Verdict G.alphabet (G.rules s) (G.whole s) n ts
        (parser G.alphabet (G.rules s) n (G.whole s) ts) }
{}
