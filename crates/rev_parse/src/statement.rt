//! The parser of statements and blocks.
ghost use Rattle.std.specs.Prelude.{◌≡◌, ◌++◌, [], ◌∷◌, OnOk, map, length, option_map};
ghost use Rattle.rev_expressions.specs.Grammar as spec;
ghost use Rattle.rev_expressions.specs.Statements as st;
ghost use Rattle.rev_expressions.specs.Lists.{more_of, more_listed};
ghost use Rattle.rev_expressions.specs.Parse.{parse};
ghost use Rattle.rev_expressions.specs.Parses.{Parses, ParsesBy};
ghost use Rattle.rev_parse.specs.Parts.{statement_form_of_name, flat_form_behind, form_behind};
ghost use Rattle.rev_parse.specs.Parts.{item_begins, more_parts, statement_begins};
ghost use Rattle.rev_parse.specs.Parts.{with_last};
ghost use Rattle.rev_syntax.specs.View as view;

use crate::form;
use rev_expressions::{
    Cursor, SourceText, TreeFault, arguments, begins_expr, bracketed, expr, name, within,
};
use rev_syntax::{Arm, Block, Expr, Fixed, Form, Item, Name, Rhs, Stmt, Token, TokenKind};
use std::alloc::AllocError;

/// Arguments in their parentheses.
#[tactic(auto, using(crate::proofs::StatementRules::actual_cases))]
fn actual(
    source: &SourceText<'_>,
    cursor: &mut Cursor<'_>,
    levels: u32,
) -> Result<Vec<Expr>, TreeFault>
    ensures { Parses st.actual
        source.now levels cursor.old (λ es. map view.expression es.items) result cursor.new }
{
    if !cursor.is_at(Fixed::OpenParen) {
        return Err(TreeFault::Unexpected);
    }
    let inner = within(levels)?;
    cursor.advance();
    arguments(source, cursor, inner)
}

/// A name and the arguments behind it.
#[tactic(auto, using(crate::proofs::StatementRules::application_is))]
fn application(
    source: &SourceText<'_>,
    cursor: &mut Cursor<'_>,
    levels: u32,
) -> Result<(Name, Vec<Expr>), TreeFault>
    ensures { Parses st.application
        source.now levels cursor.old
        (λ p. (view.placed_name p.0, map view.expression p.1.items)) result cursor.new }
{
    let name = name(source, cursor, levels)?;
    let args = actual(source, cursor, levels)?;
    Ok((name, args))
}

/// What is assigned.
fn right_side(
    source: &SourceText<'_>,
    cursor: &mut Cursor<'_>,
    levels: u32,
) -> Result<Rhs, TreeFault>
    ensures { Parses st.right_side source.now levels cursor.old view.right_side result cursor.new }
{
    let Some(token) = cursor.peek() else {
        return Err(TreeFault::Unexpected);
    };
    let at = token.start;
    match token.kind {
        TokenKind::Fixed(Fixed::Call) => {
            cursor.advance();
            let (name, args) = application(source, cursor, levels)?;
            Ok(Rhs::Call { at, name, args })
        }
        TokenKind::Fixed(Fixed::Fork) => {
            cursor.advance();
            let (name, args) = application(source, cursor, levels)?;
            Ok(Rhs::Fork { at, name, args })
        }
        TokenKind::Fixed(Fixed::TryJoin) => {
            cursor.advance();
            let handle = expr(source, cursor, levels)?;
            Ok(Rhs::Try { at, handle })
        }
        _ => Ok(Rhs::Plain(expr(source, cursor, levels)?)),
    }
}

/// `=`, a right side and `;`.
#[tactic(auto, using(crate::proofs::StatementRules::assigned_is))]
fn assigned(source: &SourceText<'_>, cursor: &mut Cursor<'_>, levels: u32) -> Result<Rhs, TreeFault>
    ensures { Parses st.assigned source.now levels cursor.old view.right_side result cursor.new }
{
    cursor.expect(Fixed::Assign)?;
    let rhs = right_side(source, cursor, levels)?;
    cursor.expect(Fixed::Semicolon)?;
    Ok(rhs)
}

/// What follows a name that begins a statement.
fn assignment(
    source: &SourceText<'_>,
    cursor: &mut Cursor<'_>,
    levels: u32,
    name: Name,
) -> Result<Form, TreeFault>
    ensures { ParsesBy
        (λ b n ts. statement_form_of_name (view.placed_name name) (parse b n (st.assignment b) ts))
        source.now levels cursor.old view.statement_form result cursor.new }
{
    let Some(token) = cursor.peek() else {
        return Err(TreeFault::Unexpected);
    };
    match token.kind {
        TokenKind::Fixed(Fixed::Assign) => {
            let rhs = assigned(source, cursor, levels)?;
            Ok(form::assign(name, rhs))
        }
        _ => {
            let index = bracketed(source, cursor, levels)?;
            cursor.expect(Fixed::Assign)?;
            let value = expr(source, cursor, levels)?;
            cursor.expect(Fixed::Semicolon)?;
            Ok(form::assign_cell(name, index, value))
        }
    }
}

#[tactic(auto, using(crate::proofs::StatementRules::let_is))]
fn let_form(
    source: &SourceText<'_>,
    cursor: &mut Cursor<'_>,
    levels: u32,
) -> Result<Form, TreeFault>
    ensures { Parses st.let_form
        source.now levels cursor.old view.statement_form result cursor.new }
{
    let name = name(source, cursor, levels)?;
    let rhs = assigned(source, cursor, levels)?;
    Ok(form::let_form(name, rhs))
}

#[tactic(auto, using(crate::proofs::StatementRules::call_is))]
fn call_form(
    source: &SourceText<'_>,
    cursor: &mut Cursor<'_>,
    levels: u32,
) -> Result<Form, TreeFault>
    ensures { Parses st.call_form
        source.now levels cursor.old view.statement_form result cursor.new }
{
    let (name, args) = application(source, cursor, levels)?;
    cursor.expect(Fixed::Semicolon)?;
    Ok(form::call(name, args))
}

#[tactic(auto, using(crate::proofs::StatementRules::fork_is))]
fn fork_form(
    source: &SourceText<'_>,
    cursor: &mut Cursor<'_>,
    levels: u32,
) -> Result<Form, TreeFault>
    ensures { Parses st.fork_form
        source.now levels cursor.old view.statement_form result cursor.new }
{
    let (name, args) = application(source, cursor, levels)?;
    cursor.expect(Fixed::Semicolon)?;
    Ok(form::fork(name, args))
}

#[tactic(auto, using(crate::proofs::StatementRules::join_is))]
fn join_form(
    source: &SourceText<'_>,
    cursor: &mut Cursor<'_>,
    levels: u32,
) -> Result<Form, TreeFault>
    ensures { Parses st.join_form
        source.now levels cursor.old view.statement_form result cursor.new }
{
    let handle = expr(source, cursor, levels)?;
    cursor.expect(Fixed::Semicolon)?;
    Ok(form::join(handle))
}

#[tactic(auto, using(crate::proofs::StatementRules::assert_is))]
fn assert_form(
    source: &SourceText<'_>,
    cursor: &mut Cursor<'_>,
    levels: u32,
) -> Result<Form, TreeFault>
    ensures { Parses st.assert_form
        source.now levels cursor.old view.statement_form result cursor.new }
{
    let test = expr(source, cursor, levels)?;
    cursor.expect(Fixed::Semicolon)?;
    Ok(form::assert(test))
}

fn return_form(
    source: &SourceText<'_>,
    cursor: &mut Cursor<'_>,
    levels: u32,
) -> Result<Form, TreeFault>
    ensures { Parses st.return_form
        source.now levels cursor.old view.statement_form result cursor.new }
{
    if !begins_expr(cursor) {
        cursor.expect(Fixed::Semicolon)?;
        return Ok(form::return_form(None));
    }
    let value = expr(source, cursor, levels)?;
    cursor.expect(Fixed::Semicolon)?;
    Ok(form::return_form(Some(value)))
}

/// An item of a `print`.
fn item(source: &SourceText<'_>, cursor: &mut Cursor<'_>, levels: u32) -> Result<Item, TreeFault>
    ensures { Parses st.item source.now levels cursor.old view.print_item result cursor.new }
{
    let Some(token) = cursor.peek() else {
        return Err(TreeFault::Unexpected);
    };
    match token.kind {
        TokenKind::Text => {
            let text = source.text(token)?;
            cursor.advance();
            Ok(text)
        }
        _ => Ok(Item::Value(expr(source, cursor, levels)?)),
    }
}

/// Whether an item comes.
#[tactic(auto, unfolding(rev_expressions::specs::Statements::item, rev_expressions::specs::Grammar::rank_sign, rev_expressions::specs::Grammar::bracketed, rev_expressions::specs::Grammar::choice, rev_expressions::specs::Grammar::name, rev_expressions::specs::Grammar::name_tail, rev_expressions::specs::Grammar::primary, rev_expressions::specs::Grammar::unary, rev_expressions::specs::Grammar::product, rev_expressions::specs::Grammar::sum, rev_expressions::specs::Grammar::comparison, rev_expressions::specs::Grammar::conjunction, rev_expressions::specs::Grammar::expr))]
fn begins_item(cursor: &Cursor<'_>) -> bool
    ensures { result ≡ item_begins cursor.now.rest.now }
{
    let Some(token) = cursor.peek() else {
        return false;
    };
    matches!(
        token.kind,
        TokenKind::Text
            | TokenKind::Fixed(Fixed::Minus)
            | TokenKind::Fixed(Fixed::Bang)
            | TokenKind::Int(_)
            | TokenKind::Fixed(Fixed::True)
            | TokenKind::Fixed(Fixed::False)
            | TokenKind::Fixed(Fixed::NoRev)
            | TokenKind::Name
            | TokenKind::Fixed(Fixed::Input)
            | TokenKind::Fixed(Fixed::Inputs)
            | TokenKind::Fixed(Fixed::Pick)
            | TokenKind::Fixed(Fixed::OpenParen)
    )
}

fn push_item(items: &mut Vec<Item>, item: Item) -> Result<(), AllocError>
    ensures { OnOk result
        (map view.print_item items.new.items
        ≡ map view.print_item items.old.items ++ view.print_item item ∷ []) }
{
    items.push(item)?;
    Ok(())
}

fn items(
    source: &SourceText<'_>,
    cursor: &mut Cursor<'_>,
    levels: u32,
) -> Result<Vec<Item>, TreeFault>
    ensures { Parses (λ b. spec.listing (st.item b))
        source.now levels cursor.old (λ xs. map view.print_item xs.items) result cursor.new }
{
    if !begins_item(cursor) {
        return Ok(Vec::new(source.alloc));
    }
    let first = item(source, cursor, levels)?;
    let mut found = Vec::with_capacity(source.alloc, 1)?;
    push_item(&mut found, first)?;
    more_items(source, cursor, levels, found)
}

/// The items behind the first, each behind a comma.
#[tactic(auto, using(rev_expressions::proofs::Lists::comma_turns))]
fn more_items(
    source: &SourceText<'_>,
    cursor: &mut Cursor<'_>,
    levels: u32,
    found: Vec<Item>,
) -> Result<Vec<Item>, TreeFault>
    ensures { ParsesBy
        (λ b n ts. more_listed b n (st.item b) (length ts) (map view.print_item found.items) ts)
        source.now levels cursor.old (λ xs. map view.print_item xs.items) result cursor.new }
{
    let mut found = found;
    for _turn in 0..cursor.left() {
        if !cursor.is_at(Fixed::Comma) {
            return Ok(found);
        }
        cursor.advance();
        let item = item(source, cursor, levels)?;
        push_item(&mut found, item)?;
    }
    Ok(found)
}

#[tactic(auto, using(crate::proofs::StatementRules::print_is))]
fn print_form(
    source: &SourceText<'_>,
    cursor: &mut Cursor<'_>,
    levels: u32,
) -> Result<Form, TreeFault>
    ensures { Parses st.print_form
        source.now levels cursor.old view.statement_form result cursor.new }
{
    let items = items(source, cursor, levels)?;
    cursor.expect(Fixed::Semicolon)?;
    Ok(form::print(items))
}

/// Whether a statement comes.
#[tactic(auto, unfolding(rev_expressions::specs::Statements::statement, rev_expressions::specs::Statements::let_form, rev_expressions::specs::Statements::if_form, rev_expressions::specs::Statements::while_form, rev_expressions::specs::Statements::call_form, rev_expressions::specs::Statements::return_form, rev_expressions::specs::Statements::fork_form, rev_expressions::specs::Statements::join_form, rev_expressions::specs::Statements::print_form, rev_expressions::specs::Statements::assert_form, rev_expressions::specs::Statements::assignment))]
fn begins_statement(cursor: &Cursor<'_>) -> bool
    ensures { result ≡ statement_begins cursor.now.rest.now }
{
    let Some(token) = cursor.peek() else {
        return false;
    };
    matches!(
        token.kind,
        TokenKind::Fixed(Fixed::Let)
            | TokenKind::Name
            | TokenKind::Fixed(Fixed::If)
            | TokenKind::Fixed(Fixed::While)
            | TokenKind::Fixed(Fixed::Call)
            | TokenKind::Fixed(Fixed::Return)
            | TokenKind::Fixed(Fixed::Fork)
            | TokenKind::Fixed(Fixed::Join)
            | TokenKind::Fixed(Fixed::Print)
            | TokenKind::Fixed(Fixed::Assert)
    )
}

fn push_stmt(found: &mut Vec<Stmt>, stmt: Stmt) -> Result<(), AllocError>
    ensures { OnOk result
        (map view.stmt found.new.items ≡ map view.stmt found.old.items ++ view.stmt stmt ∷ []) }
{
    found.push(stmt)?;
    Ok(())
}

fn push_arm(found: &mut Vec<Arm>, arm: Arm) -> Result<(), AllocError>
    ensures { OnOk result
        (map view.arm found.new.items ≡ map view.arm found.old.items ++ view.arm arm ∷ []) }
{
    found.push(arm)?;
    Ok(())
}

/// A block in its braces.
#[cycle(stmt)]
#[tactic(auto, using(crate::proofs::StatementRules::block_cases))]
pub fn block(
    source: &SourceText<'_>,
    cursor: &mut Cursor<'_>,
    levels: u32,
) -> Result<Block, TreeFault>
    ensures { Parses (λ _. st.block) source.now levels cursor.old view.block result cursor.new }
{
    if !cursor.is_at(Fixed::OpenBrace) {
        return Err(TreeFault::Unexpected);
    }
    let inner = within(levels)?;
    cursor.advance();
    body(source, cursor, inner)
}

/// The statements of a block, up to its closing brace.
#[cycle(stmt)]
#[tactic(auto, using(crate::proofs::StatementRules::body_is))]
fn body(source: &SourceText<'_>, cursor: &mut Cursor<'_>, levels: u32) -> Result<Block, TreeFault>
    ensures { Parses st.body source.now levels cursor.old view.block result cursor.new }
{
    let stmts = statements(source, cursor, levels)?;
    cursor.expect(Fixed::CloseBrace)?;
    Ok(form::block(stmts))
}

#[cycle(stmt)]
fn statements(
    source: &SourceText<'_>,
    cursor: &mut Cursor<'_>,
    levels: u32,
) -> Result<Vec<Stmt>, TreeFault>
    ensures { ParsesBy (λ b n ts. more_of b n (st.statement b) (length ts) [] ts)
        source.now levels cursor.old (λ xs. map view.stmt xs.items) result cursor.new }
{
    if !begins_statement(cursor) {
        return Ok(Vec::new(source.alloc));
    }
    let mut found = Vec::with_capacity(source.alloc, 1)?;
    let mut near = 0;
    for _turn in 0..cursor.left() {
        if !begins_statement(cursor) {
            return Ok(found);
        }
        let stmt = statement(source, cursor, levels, near)?;
        near = stmt.line;
        push_stmt(&mut found, stmt)?;
    }
    Ok(found)
}

/// A statement. Its line is found soonest where it is `near` or the next one.
#[cycle(stmt)]
fn statement(
    source: &SourceText<'_>,
    cursor: &mut Cursor<'_>,
    levels: u32,
    near: u32,
) -> Result<Stmt, TreeFault>
    ensures { Parses st.statement source.now levels cursor.old view.stmt result cursor.new }
{
    let Some(token) = cursor.peek() else {
        return Err(TreeFault::Unexpected);
    };
    let line = source.line_near(near, token.start);
    let form = form_at(source, cursor, levels, token)?;
    Ok(form::stmt(token.start, line, form))
}

/// A statement's form, of which this is the first token.
#[cycle(stmt)]
fn form_at(
    source: &SourceText<'_>,
    cursor: &mut Cursor<'_>,
    levels: u32,
    token: Token,
) -> Result<Form, TreeFault>
    ensures { ParsesBy (λ b n ts. form_behind b n token ts)
        source.now levels cursor.old view.statement_form result cursor.new }
{
    match token.kind {
        TokenKind::Fixed(Fixed::Let) => {
            cursor.advance();
            let_form(source, cursor, levels)
        }
        TokenKind::Name => {
            let name = source.name(token)?;
            cursor.advance();
            assignment(source, cursor, levels, name)
        }
        TokenKind::Fixed(Fixed::If) => {
            cursor.advance();
            if_form(source, cursor, levels)
        }
        TokenKind::Fixed(Fixed::While) => {
            cursor.advance();
            while_form(source, cursor, levels)
        }
        _ => flat_form_at(source, cursor, levels, token),
    }
}

/// A form with no block, of which this is the first token.
fn flat_form_at(
    source: &SourceText<'_>,
    cursor: &mut Cursor<'_>,
    levels: u32,
    token: Token,
) -> Result<Form, TreeFault>
    ensures { ParsesBy (λ b n ts. flat_form_behind b n token ts)
        source.now levels cursor.old view.statement_form result cursor.new }
{
    match token.kind {
        TokenKind::Fixed(Fixed::Call) => {
            cursor.advance();
            call_form(source, cursor, levels)
        }
        TokenKind::Fixed(Fixed::Return) => {
            cursor.advance();
            return_form(source, cursor, levels)
        }
        TokenKind::Fixed(Fixed::Fork) => {
            cursor.advance();
            fork_form(source, cursor, levels)
        }
        TokenKind::Fixed(Fixed::Join) => {
            cursor.advance();
            join_form(source, cursor, levels)
        }
        TokenKind::Fixed(Fixed::Print) => {
            cursor.advance();
            print_form(source, cursor, levels)
        }
        TokenKind::Fixed(Fixed::Assert) => {
            cursor.advance();
            assert_form(source, cursor, levels)
        }
        _ => Err(TreeFault::Unexpected),
    }
}

#[cycle(stmt)]
#[tactic(auto, using(crate::proofs::StatementRules::while_is))]
fn while_form(
    source: &SourceText<'_>,
    cursor: &mut Cursor<'_>,
    levels: u32,
) -> Result<Form, TreeFault>
    ensures { Parses st.while_form
        source.now levels cursor.old view.statement_form result cursor.new }
{
    let test = expr(source, cursor, levels)?;
    let body = block(source, cursor, levels)?;
    Ok(form::while_form(test, body))
}

/// A test and its block.
#[cycle(stmt)]
#[tactic(auto, using(crate::proofs::StatementRules::arm_is))]
fn arm(source: &SourceText<'_>, cursor: &mut Cursor<'_>, levels: u32) -> Result<Arm, TreeFault>
    ensures { Parses st.arm source.now levels cursor.old view.arm result cursor.new }
{
    let test = expr(source, cursor, levels)?;
    let body = block(source, cursor, levels)?;
    Ok(form::arm(test, body))
}

#[cycle(stmt)]
fn if_form(source: &SourceText<'_>, cursor: &mut Cursor<'_>, levels: u32) -> Result<Form, TreeFault>
    ensures { Parses st.if_form source.now levels cursor.old view.statement_form result cursor.new }
{
    let first = arm(source, cursor, levels)?;
    let mut tests = Vec::with_capacity(source.alloc, 1)?;
    push_arm(&mut tests, first)?;
    let (arms, last) = else_parts(source, cursor, levels, tests)?;
    Ok(form::if_form(arms, last))
}

/// The tests behind these, and the last block if there is one.
#[cycle(stmt)]
fn else_parts(
    source: &SourceText<'_>,
    cursor: &mut Cursor<'_>,
    levels: u32,
    arms: Vec<Arm>,
) -> Result<(Vec<Arm>, Option<Block>), TreeFault>
    ensures { ParsesBy
        (λ b n ts. more_parts b n (length ts) (map st.Test (map view.arm arms.items)) ts)
        source.now levels cursor.old
        (λ p. with_last (map view.arm p.0.items) (option_map view.block p.1)) result cursor.new }
{
    let mut arms = arms;
    for _turn in 0..cursor.left() {
        if !cursor.is_at(Fixed::Else) {
            return Ok((arms, None));
        }
        cursor.advance();
        if !cursor.is_at(Fixed::If) {
            let last = block(source, cursor, levels)?;
            return Ok((arms, Some(last)));
        }
        cursor.advance();
        let next = arm(source, cursor, levels)?;
        push_arm(&mut arms, next)?;
    }
    Ok((arms, None))
}
