//! Programs as they are written.
//!
//! A place `at` is the offset of a byte of the source, counted from 0. Where contracts speak of a
//! tree, they speak of the plain tree that `specs/View.antt` makes of it.

use rev_num::{Value, ValueKind};

/// The operators with one operand: `-` and `!`.
#[derive(Drop, Clone, Copy)]
pub enum UnaryOp {
    Neg,
    Not,
}

/// The operators with two operands: `+ - * / % == != < <= > >= &&` and two vertical bars.
#[derive(Drop, Clone, Copy)]
pub enum BinaryOp {
    Add,
    Sub,
    Mul,
    Div,
    Rem,
    Eq,
    Ne,
    Lt,
    Le,
    Gt,
    Ge,
    And,
    Or,
}

/// A name, with the offset of its first byte.
#[derive(Drop)]
pub struct Name {
    pub at: u32,
    pub text: Vec<u8>,
}

/// An expression, with the offset of its first token, an opening parenthesis included.
#[cycle(expr)]
#[derive(Drop)]
pub struct Expr {
    pub at: u32,
    pub node: Node,
}

/// What an expression is made of, without its offset.
#[cycle(expr)]
#[derive(Drop)]
pub enum Node {
    Int(i64),
    Bool(bool),
    /// `none`, the handle of no revision.
    NoRev,
    Var(Name),
    /// A cell of an array: `a[index]`.
    Cell {
        name: Name,
        index: Box<Expr>,
    },
    /// The application of a `fun`.
    Apply {
        name: Name,
        args: Vec<Expr>,
    },
    /// `input[index]`, with the offset of the word also where parentheses stand before it.
    Input {
        word_at: u32,
        index: Box<Expr>,
    },
    /// `inputs`, with the offset of the word also where parentheses stand before it.
    Inputs {
        word_at: u32,
    },
    /// `pick(test, yes, no)`.
    Pick {
        test: Box<Expr>,
        yes: Box<Expr>,
        no: Box<Expr>,
    },
    Unary {
        op: UnaryOp,
        part: Box<Expr>,
    },
    /// At least one operator, all of one rule of the grammar, worked from left to right.
    Chain {
        first: Box<Expr>,
        rest: Vec<Link>,
    },
}

/// An operator of a chain, with its right operand.
#[cycle(expr)]
#[derive(Drop)]
pub struct Link {
    pub op: BinaryOp,
    pub part: Expr,
}

/// Statements between braces.
#[cycle(stmt)]
#[derive(Drop)]
pub struct Block {
    pub stmts: Vec<Stmt>,
}

/// A statement, with the offset and the line of its first token.
#[cycle(stmt)]
#[derive(Drop)]
pub struct Stmt {
    pub at: u32,
    pub line: u32,
    pub form: Form,
}

/// What a statement does, without its offset and line.
#[cycle(stmt)]
#[derive(Drop)]
pub enum Form {
    Let {
        name: Name,
        rhs: Rhs,
    },
    Assign {
        name: Name,
        rhs: Rhs,
    },
    AssignCell {
        name: Name,
        index: Expr,
        value: Expr,
    },
    /// An `if` with its `else if`s, and the block of its last `else`.
    If {
        arms: Vec<Arm>,
        last: Option<Block>,
    },
    While {
        test: Expr,
        body: Block,
    },
    Call {
        name: Name,
        args: Vec<Expr>,
    },
    Return {
        value: Option<Expr>,
    },
    Fork {
        name: Name,
        args: Vec<Expr>,
    },
    Join {
        handle: Expr,
    },
    Print {
        items: Vec<Item>,
    },
    Assert {
        test: Expr,
    },
}

/// A test of an `if`, with its block.
#[cycle(stmt)]
#[derive(Drop)]
pub struct Arm {
    pub test: Expr,
    pub body: Block,
}

/// What stands after the `=` of a `let` or an assignment. Other than an expression, it has the
/// offset of its word.
#[derive(Drop)]
pub enum Rhs {
    Plain(Expr),
    /// `call name(args)`.
    Call {
        at: u32,
        name: Name,
        args: Vec<Expr>,
    },
    /// `rfork name(args)`.
    Fork {
        at: u32,
        name: Name,
        args: Vec<Expr>,
    },
    /// `tryjoin handle`.
    Try {
        at: u32,
        handle: Expr,
    },
}

/// What a `print` writes: the bytes between two quotes, or a value.
#[derive(Drop)]
pub enum Item {
    Text { at: u32, bytes: Vec<u8> },
    Value(Expr),
}

/// A parameter, with the offset of its kind.
#[derive(Drop)]
pub struct Param {
    pub name: Name,
    pub kind_at: u32,
    pub kind: ValueKind,
}

/// The number of cells of an array, with its offset.
#[derive(Drop, Clone, Copy)]
pub struct Size {
    pub at: u32,
    pub cells: i64,
}

/// A start value, with the offset of its first token, a minus sign included.
#[derive(Drop)]
pub struct Const {
    pub at: u32,
    pub value: Value,
}

/// A declaration of a program.
#[derive(Drop)]
pub enum Decl {
    /// `fun name(params): result = body;`
    Fun {
        name: Name,
        params: Vec<Param>,
        result: ValueKind,
        body: Expr,
    },
    /// `merge name(main, join, root) = body;`
    Merge {
        name: Name,
        main: Name,
        join: Name,
        root: Name,
        body: Expr,
    },
    /// A `versioned` variable, or one that is `cumulative` by a merge. It is an array where it has
    /// a size.
    Shared {
        name: Name,
        by: Option<Name>,
        kind_at: u32,
        holds: ValueKind,
        size: Option<Size>,
        first: Option<Const>,
    },
    /// `proc name(params): result { .. }`
    Proc {
        name: Name,
        params: Vec<Param>,
        result: Option<ValueKind>,
        body: Block,
    },
}

/// A whole text, with the offset of the word `main`.
#[derive(Drop)]
pub struct Program {
    pub decls: Vec<Decl>,
    pub main_at: u32,
    pub main: Block,
}
