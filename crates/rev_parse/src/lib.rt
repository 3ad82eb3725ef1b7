//! The parser of the language: the one tree of a text, or the first place at which it is no
//! program.
//!
//! The crate `rev_expressions` has the grammar and the parser of expressions; here are statements,
//! declarations and whole programs. The parser is one pass over the tokens; its calls nest by
//! levels, and within a level by ranks of operators.
#![tactic(auto)]

mod declaration;
mod form;
mod language;
mod laws;
mod statement;
mod whole;

pub use language::LanguageGrammar;
pub use laws::{language_is_exact, one_verdict, some_verdict};
pub use whole::{MOST_LEVELS, SyntaxFault, parse};
