//! The tokens and the syntax trees of the language.
//!
//! `specs/Words.antt` has the spellings of reserved words and signs, `specs/Tokens.antt` what the
//! tokens of a text are, `specs/Trees.antt` and `specs/View.antt` the plain trees that contracts
//! speak of.
#![tactic(auto)]

mod laws;
mod lex;
mod names;
mod place;
mod scan;
mod starts;
mod token;
mod tree;

pub use laws::{one_fault, one_kind, one_list, some_reading};
pub use lex::tokens;
pub use names::is_name;
pub use place::line_column;
pub use scan::{LexFault, is_digit, is_letter, is_name_byte};
pub use token::{Fixed, Token, TokenKind};
pub use tree::{
    Arm, BinaryOp, Block, Const, Decl, Expr, Form, Item, Link, Name, Node, Param, Program, Rhs,
    Size, Stmt, UnaryOp,
};
