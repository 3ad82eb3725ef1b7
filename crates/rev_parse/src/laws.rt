//! Laws of the verdicts on the tokens of a text.
ghost use Rattle.rev_parse.specs.Instance.{IsExactHere};
ghost use Rattle.rev_parse.specs.Verdicts.{OneVerdict, SomeVerdict};

use crate::language::LanguageGrammar;
use rev_expressions::parser_is_exact;

/// The theorem on grammars that the next token decides, at the grammar of the language.
pub fn language_is_exact()
    ensures { IsExactHere }
{
    parser_is_exact::<LanguageGrammar<'_>>();
}

/// The tokens of a text have one verdict at most: they are one program, or have one first fault.
pub fn one_verdict()
    ensures { OneVerdict }
{}

/// All tokens have a verdict.
pub fn some_verdict()
    ensures { SomeVerdict }
{}
