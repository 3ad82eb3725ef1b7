//! The grammar of the language, the tokens that a parser has left, and the parser of expressions.
//!
//! `specs/Grammar.antt`, `specs/Statements.antt` and `specs/Declarations.antt` have the grammar,
//! rule by rule, as forms, and `specs/Form.antt` says what a form derives.
//! `specs/Parse.antt` is the parser of a form, with which each parsing function agrees, here and in
//! the crate above that parses statements and declarations.
#![tactic(auto)]

mod cursor;
mod expression;
mod laws;
mod source;

pub use cursor::{Cursor, TreeFault, within};
pub use expression::{arguments, begins_expr, bracketed, expr, expr_before, name};
pub use laws::{Grammar, parser_is_exact};
pub use source::SourceText;
