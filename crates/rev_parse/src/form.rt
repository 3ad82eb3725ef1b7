//! Statements put together of their parts.

ghost use Rattle.std.specs.Prelude.{◌≡◌, map, option_map};
ghost use Rattle.rev_syntax.specs.Trees as t;
ghost use Rattle.rev_syntax.specs.View as view;

use rev_syntax::{Arm, Block, Expr, Form, Item, Name, Rhs, Stmt};

/// `let NAME = RHS;`
pub fn let_form(name: Name, rhs: Rhs) -> Form
    ensures { view.statement_form result ≡ t.bind (view.placed_name name) (view.right_side rhs) }
{
    Form::Let { name, rhs }
}

/// `NAME = RHS;`
pub fn assign(name: Name, rhs: Rhs) -> Form
    ensures { view.statement_form result ≡ t.assign (view.placed_name name) (view.right_side rhs) }
{
    Form::Assign { name, rhs }
}

/// `NAME[INDEX] = VALUE;`
pub fn assign_cell(name: Name, index: Expr, value: Expr) -> Form
    ensures { view.statement_form result
        ≡ t.assign_cell (view.placed_name name) (view.expression index) (view.expression value) }
{
    Form::AssignCell { name, index, value }
}

/// `if` with its arms, and the block behind the last `else`, if there is one.
pub fn if_form(arms: Vec<Arm>, last: Option<Block>) -> Form
    ensures { view.statement_form result
        ≡ view.choice (view.arms_of (map view.arm arms.items)) (option_map view.block last) }
{
    Form::If { arms, last }
}

/// `while` with its test and its body.
pub fn while_form(test: Expr, body: Block) -> Form
    ensures { view.statement_form result ≡ t.repeat (view.expression test) (view.block body) }
{
    Form::While { test, body }
}

/// A call of a `proc` as a statement.
pub fn call(name: Name, args: Vec<Expr>) -> Form
    ensures { view.statement_form result
        ≡ t.call (view.placed_name name) (view.expressions_of (map view.expression args.items)) }
{
    Form::Call { name, args }
}

/// `return`, with a value or without.
pub fn return_form(value: Option<Expr>) -> Form
    ensures { view.statement_form result ≡ t.return (option_map view.expression value) }
{
    Form::Return { value }
}

/// `rfork` of a `proc` as a statement, whose handle nobody keeps.
pub fn fork(name: Name, args: Vec<Expr>) -> Form
    ensures { view.statement_form result
        ≡ t.fork (view.placed_name name) (view.expressions_of (map view.expression args.items)) }
{
    Form::Fork { name, args }
}

/// `rjoin` of a handle as a statement.
pub fn join(handle: Expr) -> Form
    ensures { view.statement_form result ≡ t.join (view.expression handle) }
{
    Form::Join { handle }
}

/// `print` of items.
pub fn print(items: Vec<Item>) -> Form
    ensures { view.statement_form result ≡ t.print (map view.print_item items.items) }
{
    Form::Print { items }
}

/// `assert` of a test.
pub fn assert(test: Expr) -> Form
    ensures { view.statement_form result ≡ t.assert (view.expression test) }
{
    Form::Assert { test }
}

/// An arm of an `if`: its test with its block.
pub fn arm(test: Expr, body: Block) -> Arm
    ensures { view.arm result ≡ (view.expression test, view.block body) }
{
    Arm { test, body }
}

/// A block of statements.
pub fn block(stmts: Vec<Stmt>) -> Block
    ensures { view.block result ≡ view.statements_of (map view.stmt stmts.items) }
{
    Block { stmts }
}

/// A statement with the offset and the line of its first token.
pub fn stmt(at: u32, line: u32, form: Form) -> Stmt
    ensures { view.stmt result ≡ t.statement at line (view.statement_form form) }
{
    Stmt { at, line, form }
}
