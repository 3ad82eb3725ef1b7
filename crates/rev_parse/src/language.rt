//! The grammar of the language, as one that the next token decides.
ghost use Rattle.std.specs.Prelude.{◌≡◌};
ghost use Rattle.rev_parse.specs.Instance.{Choices};

use rev_expressions::Grammar;

/// The grammar of the language over a text, of which the names in its trees are slices.
#[derive(Clone, Copy, Drop)]
pub struct LanguageGrammar<'a> {
    pub text: &'a [u8],
    ghost choices: { Choices text.now },
}

impl<'a> LanguageGrammar<'a> {
    /// The grammar over this text.
    pub fn new(text: &'a [u8]) -> LanguageGrammar<'a>
        ensures { result.text.now ≡ text.now }
    {
        LanguageGrammar { text }
    }
}

impl Grammar for LanguageGrammar<'_> {
    ghost use Rattle.rev_syntax.specs.Trees.{ProgramTree};
    ghost use Rattle.rev_expressions.specs.Classes.{classes};
    ghost use Rattle.rev_expressions.specs.Grammar as grammar;
    ghost use Rattle.rev_expressions.specs.Declarations.{inner, program};
    ghost use Rattle.rev_parse.specs.Instance as instance;

    ghost alphabet = { grammar.alphabet };

    ghost rules = { λ s. inner s.text.now };

    ghost Whole = { ProgramTree };

    ghost whole = { λ s. program s.text.now };

    ghost kinds = { classes };

    ghost goes_on = { instance.going_on };

    ghost decided = { λ s. instance.decided s.text.now s.choices };

    ghost whole_decided = { λ s. s.choices.whole };
}
