//! The parser of expressions, each production above the function that reads it.
ghost use Rattle.std.specs.Prelude.{◌≡◌, ◌++◌, [], ◌∷◌, IfOk, OnOk, map};
ghost use Rattle.rev_expressions.specs.Grammar as spec;
ghost use Rattle.rev_expressions.specs.Parse.{parse, inside, IsSign, links, of_name};
ghost use Rattle.rev_expressions.specs.Parse.{of_parts, cell_of, apply_of, expr_begins};
ghost use Rattle.rev_expressions.specs.Parse.{chain_behind, operator_begins, ranked_behind};
ghost use Rattle.rev_expressions.specs.Reader.{begins};
ghost use Rattle.rev_expressions.specs.Lists.{more_behind};
ghost use Rattle.rev_expressions.specs.Parses.{Parses, ParsesBy};
ghost use Rattle.rev_syntax.specs.Trees as t;
ghost use Rattle.rev_syntax.specs.View as view;

use crate::cursor::{Cursor, TreeFault, within};
use crate::source::SourceText;
use rev_syntax::{BinaryOp, Expr, Fixed, Link, Name, Node, Token, TokenKind, UnaryOp};
use std::alloc::{AllocError, Global};

/// How loosely the operators of a chain bind.
#[derive(Clone, Copy, Drop)]
pub enum Rank {
    Or,
    And,
    Compare,
    Sum,
    Product,
}

/// The operator of this rank that comes next, if one does.
#[tactic(auto, unfolding(crate::specs::Reader::read, crate::specs::Grammar::rank_sign))]
fn sign(cursor: &Cursor<'_>, rank: Rank) -> Option<BinaryOp>
    ensures { IsSign rank cursor.now.rest.now result }
{
    match (rank, cursor.peek()?.kind) {
        (Rank::Or, TokenKind::Fixed(Fixed::Or)) => Some(BinaryOp::Or),
        (Rank::And, TokenKind::Fixed(Fixed::And)) => Some(BinaryOp::And),
        (Rank::Compare, TokenKind::Fixed(Fixed::Equal)) => Some(BinaryOp::Eq),
        (Rank::Compare, TokenKind::Fixed(Fixed::NotEqual)) => Some(BinaryOp::Ne),
        (Rank::Compare, TokenKind::Fixed(Fixed::Less)) => Some(BinaryOp::Lt),
        (Rank::Compare, TokenKind::Fixed(Fixed::LessEqual)) => Some(BinaryOp::Le),
        (Rank::Compare, TokenKind::Fixed(Fixed::Greater)) => Some(BinaryOp::Gt),
        (Rank::Compare, TokenKind::Fixed(Fixed::GreaterEqual)) => Some(BinaryOp::Ge),
        (Rank::Sum, TokenKind::Fixed(Fixed::Plus)) => Some(BinaryOp::Add),
        (Rank::Sum, TokenKind::Fixed(Fixed::Minus)) => Some(BinaryOp::Sub),
        (Rank::Product, TokenKind::Fixed(Fixed::Star)) => Some(BinaryOp::Mul),
        (Rank::Product, TokenKind::Fixed(Fixed::Slash)) => Some(BinaryOp::Div),
        (Rank::Product, TokenKind::Fixed(Fixed::Percent)) => Some(BinaryOp::Rem),
        _ => None,
    }
}

/// Whether an operator of products comes.
#[tactic(auto, unfolding(crate::specs::Grammar::rank_sign))]
fn product_comes(cursor: &Cursor<'_>) -> bool
    ensures { result ≡ begins spec.alphabet (spec.rank_sign Rank.Product) cursor.now.rest.now }
{
    let Some(token) = cursor.peek() else {
        return false;
    };
    matches!(
        token.kind,
        TokenKind::Fixed(Fixed::Star)
            | TokenKind::Fixed(Fixed::Slash)
            | TokenKind::Fixed(Fixed::Percent)
    )
}

/// Whether an operator of sums comes.
#[tactic(auto, unfolding(crate::specs::Grammar::rank_sign))]
fn sum_comes(cursor: &Cursor<'_>) -> bool
    ensures { result ≡ begins spec.alphabet (spec.rank_sign Rank.Sum) cursor.now.rest.now }
{
    let Some(token) = cursor.peek() else {
        return false;
    };
    matches!(
        token.kind,
        TokenKind::Fixed(Fixed::Plus) | TokenKind::Fixed(Fixed::Minus)
    )
}

/// Whether an operator of comparisons comes.
#[tactic(auto, unfolding(crate::specs::Grammar::rank_sign))]
fn comparison_comes(cursor: &Cursor<'_>) -> bool
    ensures { result ≡ begins spec.alphabet (spec.rank_sign Rank.Compare) cursor.now.rest.now }
{
    let Some(token) = cursor.peek() else {
        return false;
    };
    matches!(
        token.kind,
        TokenKind::Fixed(Fixed::Equal)
            | TokenKind::Fixed(Fixed::NotEqual)
            | TokenKind::Fixed(Fixed::Less)
            | TokenKind::Fixed(Fixed::LessEqual)
            | TokenKind::Fixed(Fixed::Greater)
            | TokenKind::Fixed(Fixed::GreaterEqual)
    )
}

/// Whether an operator of this rank or of a tighter one comes.
#[tactic(auto, unfolding(crate::specs::Grammar::rank_sign))]
fn operator_comes(cursor: &Cursor<'_>, rank: Rank) -> bool
    ensures { result ≡ operator_begins rank cursor.now.rest.now }
{
    let tight = product_comes(cursor);
    match rank {
        Rank::Product => tight,
        Rank::Sum => tight || sum_comes(cursor),
        Rank::Compare => tight || sum_comes(cursor) || comparison_comes(cursor),
        Rank::And => {
            tight || sum_comes(cursor) || comparison_comes(cursor) || cursor.is_at(Fixed::And)
        }
        Rank::Or => {
            tight
                || sum_comes(cursor)
                || comparison_comes(cursor)
                || cursor.is_at(Fixed::And)
                || cursor.is_at(Fixed::Or)
        }
    }
}

/// A part alone, or a chain that begins with it.
fn joined(alloc: Global, first: Expr, rest: Vec<Link>) -> Result<Expr, AllocError>
    ensures { IfOk result
        (λ e. view.expression e ≡ spec.joined (view.expression first) (map view.link rest.items)) }
{
    if rest.is_empty() {
        return Ok(first);
    }
    let at = first.at;
    let first = Box::new(alloc, first)?;
    Ok(Expr {
        at,
        node: Node::Chain { first, rest },
    })
}

fn push_link(found: &mut Vec<Link>, op: BinaryOp, part: Expr) -> Result<(), AllocError>
    ensures { OnOk result
        (map view.link found.new.items
        ≡ map view.link found.old.items ++ (op, view.expression part) ∷ []) }
{
    found.push(Link { op, part })?;
    Ok(())
}

fn signed(alloc: Global, at: u32, op: UnaryOp, part: Expr) -> Result<Expr, AllocError>
    ensures { IfOk result
        (λ e. view.expression e ≡ t.placed at (t.unary op (view.expression part))) }
{
    let part = Box::new(alloc, part)?;
    Ok(Expr {
        at,
        node: Node::Unary { op, part },
    })
}

fn cell(alloc: Global, name: Name, index: Expr) -> Result<Expr, AllocError>
    ensures { IfOk result
        (λ e. view.expression e
        ≡ t.placed name.at (t.cell (view.placed_name name) (view.expression index))) }
{
    let at = name.at;
    let index = Box::new(alloc, index)?;
    Ok(Expr {
        at,
        node: Node::Cell { name, index },
    })
}

fn variable(name: Name) -> Expr
    ensures { view.expression result ≡ t.placed name.at (t.var (view.placed_name name)) }
{
    Expr {
        at: name.at,
        node: Node::Var(name),
    }
}

fn input(alloc: Global, at: u32, index: Expr) -> Result<Expr, AllocError>
    ensures { IfOk result
        (λ e. view.expression e ≡ t.placed at (t.input at (view.expression index))) }
{
    let index = Box::new(alloc, index)?;
    Ok(Expr {
        at,
        node: Node::Input { word_at: at, index },
    })
}

fn picked(alloc: Global, at: u32, test: Expr, yes: Expr, no: Expr) -> Result<Expr, AllocError>
    ensures { IfOk result
        (λ e. view.expression e
        ≡ t.placed at (t.pick (view.expression test) (view.expression yes) (view.expression no))) }
{
    let test = Box::new(alloc, test)?;
    let yes = Box::new(alloc, yes)?;
    let no = Box::new(alloc, no)?;
    Ok(Expr {
        at,
        node: Node::Pick { test, yes, no },
    })
}

fn applied(name: Name, args: Vec<Expr>) -> Expr
    ensures { view.expression result
        ≡ t.placed name.at
        (t.apply (view.placed_name name) (view.expressions_of (map view.expression args.items))) }
{
    Expr {
        at: name.at,
        node: Node::Apply { name, args },
    }
}

/// The same expression, from another token on.
fn moved(at: u32, e: Expr) -> Expr
    ensures { view.expression result ≡ spec.moved at (view.expression e) }
{
    Expr { at, node: e.node }
}

/// A node at a place.
fn placed(at: u32, node: Node) -> Expr
    ensures { view.expression result ≡ t.placed at (view.expression_form node) }
{
    Expr { at, node }
}

/// A name.
#[tactic(auto, using(crate::proofs::Expressions::name_cases))]
pub fn name(
    source: &SourceText<'_>,
    cursor: &mut Cursor<'_>,
    levels: u32,
) -> Result<Name, TreeFault>
    ensures { Parses spec.name source.now levels cursor.old view.placed_name result cursor.new }
{
    let Some(token) = cursor.peek() else {
        return Err(TreeFault::Unexpected);
    };
    if !matches!(token.kind, TokenKind::Name) {
        return Err(TreeFault::Unexpected);
    }
    let name = source.name(token)?;
    cursor.advance();
    Ok(name)
}

/// An expression, where so many levels may be opened.
pub fn expr(
    source: &SourceText<'_>,
    cursor: &mut Cursor<'_>,
    levels: u32,
) -> Result<Expr, TreeFault>
    ensures { Parses spec.expr source.now levels cursor.old view.expression result cursor.new }
{
    ranked(source, cursor, levels, Rank::Or)
}

/// An expression whose chains are of this rank or bind tighter.
#[cycle(expr)]
#[tactic(auto, using(crate::proofs::Chains::ranked_is_behind, crate::proofs::Chains::none_behind))]
fn ranked(
    source: &SourceText<'_>,
    cursor: &mut Cursor<'_>,
    levels: u32,
    rank: Rank,
) -> Result<Expr, TreeFault>
    ensures { Parses (λ b. spec.ranked b rank)
        source.now levels cursor.old view.expression result cursor.new }
{
    let first = unary(source, cursor, levels)?;
    if !operator_comes(cursor, rank) {
        return Ok(first);
    }
    chains(source, cursor, levels, rank, first)
}

/// The chains of this rank and of those that bind tighter, behind the first operand of them all.
/// Each chain is the first operand of the next.
#[cycle(expr)]
#[tactic(auto, using(crate::proofs::Chains::chain_none))]
fn chains(
    source: &SourceText<'_>,
    cursor: &mut Cursor<'_>,
    levels: u32,
    rank: Rank,
    first: Expr,
) -> Result<Expr, TreeFault>
    ensures { ParsesBy (λ b n ts. ranked_behind b n rank (view.expression first) ts)
        source.now levels cursor.old view.expression result cursor.new }
{
    match rank {
        Rank::Product => chain(source, cursor, levels, Rank::Product, first),
        Rank::Sum => {
            let product = chains(source, cursor, levels, Rank::Product, first)?;
            if !operator_comes(cursor, Rank::Sum) {
                return Ok(product);
            }
            chain(source, cursor, levels, Rank::Sum, product)
        }
        Rank::Compare => {
            let sum = chains(source, cursor, levels, Rank::Sum, first)?;
            if !operator_comes(cursor, Rank::Compare) {
                return Ok(sum);
            }
            chain(source, cursor, levels, Rank::Compare, sum)
        }
        Rank::And => {
            let comparison = chains(source, cursor, levels, Rank::Compare, first)?;
            if !operator_comes(cursor, Rank::And) {
                return Ok(comparison);
            }
            chain(source, cursor, levels, Rank::And, comparison)
        }
        Rank::Or => {
            let conjunction = chains(source, cursor, levels, Rank::And, first)?;
            if !operator_comes(cursor, Rank::Or) {
                return Ok(conjunction);
            }
            chain(source, cursor, levels, Rank::Or, conjunction)
        }
    }
}

/// A chain of this rank behind its first operand.
#[cycle(expr)]
#[tactic(auto, using(crate::proofs::Chains::chain_stop))]
fn chain(
    source: &SourceText<'_>,
    cursor: &mut Cursor<'_>,
    levels: u32,
    rank: Rank,
    first: Expr,
) -> Result<Expr, TreeFault>
    ensures { ParsesBy (λ b n ts. chain_behind b n rank (view.expression first) ts)
        source.now levels cursor.old view.expression result cursor.new }
{
    let Some(_) = sign(cursor, rank) else {
        return Ok(first);
    };
    let rest = links(source, cursor, levels, rank)?;
    Ok(joined(source.alloc, first, rest)?)
}

fn is_single(rank: Rank) -> bool
    ensures { result ≡ spec.is_single rank }
{
    matches!(rank, Rank::Compare)
}

#[cycle(expr)]
#[tactic(auto, using(crate::proofs::Turns::link_turns))]
fn links(
    source: &SourceText<'_>,
    cursor: &mut Cursor<'_>,
    levels: u32,
    rank: Rank,
) -> Result<Vec<Link>, TreeFault>
    ensures { Parses (λ b. links b rank)
        source.now levels cursor.old (λ ls. map view.link ls.items) result cursor.new }
{
    let mut found = Vec::with_capacity(source.alloc, 1)?;
    for _turn in 0..cursor.left() {
        let Some(op) = sign(cursor, rank) else {
            return Ok(found);
        };
        cursor.advance();
        let part = operand(source, cursor, levels, rank)?;
        push_link(&mut found, op, part)?;
        if is_single(rank) {
            return Ok(found);
        }
    }
    Ok(found)
}

/// An operand of a chain of this rank.
#[cycle(expr)]
fn operand(
    source: &SourceText<'_>,
    cursor: &mut Cursor<'_>,
    levels: u32,
    rank: Rank,
) -> Result<Expr, TreeFault>
    ensures { Parses (λ b. spec.operand b rank)
        source.now levels cursor.old view.expression result cursor.new }
{
    match rank {
        Rank::Or => ranked(source, cursor, levels, Rank::And),
        Rank::And => ranked(source, cursor, levels, Rank::Compare),
        Rank::Compare => ranked(source, cursor, levels, Rank::Sum),
        Rank::Sum => ranked(source, cursor, levels, Rank::Product),
        Rank::Product => unary(source, cursor, levels),
    }
}

#[cycle(expr)]
fn unary(source: &SourceText<'_>, cursor: &mut Cursor<'_>, levels: u32) -> Result<Expr, TreeFault>
    ensures { Parses spec.unary source.now levels cursor.old view.expression result cursor.new }
{
    let Some(token) = cursor.peek() else {
        return Err(TreeFault::Unexpected);
    };
    match token.kind {
        TokenKind::Fixed(Fixed::Minus) => prefixed(
            source,
            cursor,
            levels,
            token.start,
            UnaryOp::Neg,
        ),
        TokenKind::Fixed(Fixed::Bang) => prefixed(
            source,
            cursor,
            levels,
            token.start,
            UnaryOp::Not,
        ),
        _ => primary(source, cursor, levels),
    }
}

/// The operand of a unary operator, which is the next token and stands at this place.
#[cycle(expr)]
#[tactic(auto, using(crate::proofs::Expressions::inside_none))]
fn prefixed(
    source: &SourceText<'_>,
    cursor: &mut Cursor<'_>,
    levels: u32,
    at: u32,
    op: UnaryOp,
) -> Result<Expr, TreeFault>
    ensures { ParsesBy (λ b n ts. inside b n spec.Operand (λ e. t.placed at (t.unary op e)) ts)
        source.now levels cursor.old view.expression result cursor.new }
{
    let inner = within(levels)?;
    cursor.advance();
    let part = unary(source, cursor, inner)?;
    Ok(signed(source.alloc, at, op, part)?)
}

#[cycle(expr)]
#[tactic(auto, unfolding(crate::specs::Reader::read, crate::specs::Grammar::primary, crate::specs::Grammar::name))]
fn primary(source: &SourceText<'_>, cursor: &mut Cursor<'_>, levels: u32) -> Result<Expr, TreeFault>
    ensures { Parses spec.primary source.now levels cursor.old view.expression result cursor.new }
{
    let Some(token) = cursor.peek() else {
        return Err(TreeFault::Unexpected);
    };
    let at = token.start;
    match token.kind {
        TokenKind::Int(n) => {
            cursor.advance();
            Ok(placed(at, Node::Int(n)))
        }
        TokenKind::Fixed(Fixed::True) => {
            cursor.advance();
            Ok(placed(at, Node::Bool(true)))
        }
        TokenKind::Fixed(Fixed::False) => {
            cursor.advance();
            Ok(placed(at, Node::Bool(false)))
        }
        TokenKind::Fixed(Fixed::NoRev) => {
            cursor.advance();
            Ok(placed(at, Node::NoRev))
        }
        TokenKind::Fixed(Fixed::Inputs) => {
            cursor.advance();
            Ok(placed(at, Node::Inputs { word_at: at }))
        }
        TokenKind::Name => {
            cursor.advance();
            let name = source.name(token)?;
            named(source, cursor, levels, name)
        }
        TokenKind::Fixed(Fixed::Input) => {
            cursor.advance();
            let index = bracketed(source, cursor, levels)?;
            Ok(input(source.alloc, at, index)?)
        }
        TokenKind::Fixed(Fixed::Pick) => {
            cursor.advance();
            pick(source, cursor, levels, at)
        }
        TokenKind::Fixed(Fixed::OpenParen) => parenthesized(source, cursor, levels, at),
        _ => Err(TreeFault::Unexpected),
    }
}

/// An expression behind its opening parenthesis, which is the next token and stands at this place.
#[cycle(expr)]
#[tactic(auto, using(crate::proofs::Expressions::inside_none))]
fn parenthesized(
    source: &SourceText<'_>,
    cursor: &mut Cursor<'_>,
    levels: u32,
    at: u32,
) -> Result<Expr, TreeFault>
    ensures { ParsesBy (λ b n ts. inside b n spec.Parens (spec.moved at) ts)
        source.now levels cursor.old view.expression result cursor.new }
{
    let inner = within(levels)?;
    cursor.advance();
    let e = expr_before(source, cursor, inner, Fixed::CloseParen)?;
    Ok(moved(at, e))
}

/// What follows a name.
#[cycle(expr)]
fn named(
    source: &SourceText<'_>,
    cursor: &mut Cursor<'_>,
    levels: u32,
    name: Name,
) -> Result<Expr, TreeFault>
    ensures { ParsesBy (λ b n ts. of_name (view.placed_name name) (parse b n (spec.name_tail b) ts))
        source.now levels cursor.old view.expression result cursor.new }
{
    let Some(token) = cursor.peek() else {
        return Ok(variable(name));
    };
    match token.kind {
        TokenKind::Fixed(Fixed::OpenBracket) => indexed(source, cursor, levels, name),
        TokenKind::Fixed(Fixed::OpenParen) => called(source, cursor, levels, name),
        _ => Ok(variable(name)),
    }
}

/// The cell of an array, whose name was read and whose opening bracket is the next token.
#[cycle(expr)]
#[tactic(auto, using(crate::proofs::Expressions::inside_none))]
fn indexed(
    source: &SourceText<'_>,
    cursor: &mut Cursor<'_>,
    levels: u32,
    name: Name,
) -> Result<Expr, TreeFault>
    ensures { ParsesBy (λ b n ts. inside b n spec.Index (cell_of (view.placed_name name)) ts)
        source.now levels cursor.old view.expression result cursor.new }
{
    let inner = within(levels)?;
    cursor.advance();
    let index = expr_before(source, cursor, inner, Fixed::CloseBracket)?;
    Ok(cell(source.alloc, name, index)?)
}

/// The application of a fun, whose name was read and whose opening parenthesis is the next token.
#[cycle(expr)]
#[tactic(auto, using(crate::proofs::Expressions::inside_none))]
fn called(
    source: &SourceText<'_>,
    cursor: &mut Cursor<'_>,
    levels: u32,
    name: Name,
) -> Result<Expr, TreeFault>
    ensures { ParsesBy (λ b n ts. inside b n spec.Arguments (apply_of (view.placed_name name)) ts)
        source.now levels cursor.old view.expression result cursor.new }
{
    let inner = within(levels)?;
    cursor.advance();
    let args = arguments(source, cursor, inner)?;
    Ok(applied(name, args))
}

/// An index in its brackets.
#[cycle(expr)]
#[tactic(auto, using(crate::proofs::Expressions::bracketed_cases))]
pub fn bracketed(
    source: &SourceText<'_>,
    cursor: &mut Cursor<'_>,
    levels: u32,
) -> Result<Expr, TreeFault>
    ensures { Parses (λ _. spec.bracketed)
        source.now levels cursor.old view.expression result cursor.new }
{
    if !cursor.is_at(Fixed::OpenBracket) {
        return Err(TreeFault::Unexpected);
    }
    let inner = within(levels)?;
    cursor.advance();
    expr_before(source, cursor, inner, Fixed::CloseBracket)
}

/// An expression and the sign behind it.
#[cycle(expr)]
#[tactic(auto, using(crate::proofs::Expressions::before_is))]
pub fn expr_before(
    source: &SourceText<'_>,
    cursor: &mut Cursor<'_>,
    levels: u32,
    sign: Fixed,
) -> Result<Expr, TreeFault>
    ensures { Parses (λ b. spec.before (spec.expr b) sign)
        source.now levels cursor.old view.expression result cursor.new }
{
    let e = ranked(source, cursor, levels, Rank::Or)?;
    cursor.expect(sign)?;
    Ok(e)
}

/// The three parts of a `pick`, in their parentheses.
#[cycle(expr)]
#[tactic(auto, using(crate::proofs::Expressions::pick_cases))]
fn pick(
    source: &SourceText<'_>,
    cursor: &mut Cursor<'_>,
    levels: u32,
    at: u32,
) -> Result<Expr, TreeFault>
    ensures { ParsesBy (λ b n ts. of_parts at (parse b n spec.choice ts))
        source.now levels cursor.old view.expression result cursor.new }
{
    if !cursor.is_at(Fixed::OpenParen) {
        return Err(TreeFault::Unexpected);
    }
    let inner = within(levels)?;
    cursor.advance();
    let test = expr_before(source, cursor, inner, Fixed::Comma)?;
    let yes = expr_before(source, cursor, inner, Fixed::Comma)?;
    let no = expr_before(source, cursor, inner, Fixed::CloseParen)?;
    Ok(picked(source.alloc, at, test, yes, no)?)
}

/// Whether an expression comes.
#[tactic(auto, unfolding(crate::specs::Grammar::rank_sign, crate::specs::Grammar::bracketed, crate::specs::Grammar::choice, crate::specs::Grammar::name, crate::specs::Grammar::name_tail, crate::specs::Grammar::primary, crate::specs::Grammar::unary, crate::specs::Grammar::product, crate::specs::Grammar::sum, crate::specs::Grammar::comparison, crate::specs::Grammar::conjunction, crate::specs::Grammar::expr))]
pub fn begins_expr(cursor: &Cursor<'_>) -> bool
    ensures { result ≡ expr_begins cursor.now.rest.now }
{
    let Some(token) = cursor.peek() else {
        return false;
    };
    matches!(
        token.kind,
        TokenKind::Fixed(Fixed::Minus)
            | TokenKind::Fixed(Fixed::Bang)
            | TokenKind::Int(_)
            | TokenKind::Fixed(Fixed::True)
            | TokenKind::Fixed(Fixed::False)
            | TokenKind::Fixed(Fixed::NoRev)
            | TokenKind::Name
            | TokenKind::Fixed(Fixed::Input)
            | TokenKind::Fixed(Fixed::Inputs)
            | TokenKind::Fixed(Fixed::Pick)
            | TokenKind::Fixed(Fixed::OpenParen)
    )
}

/// Arguments behind their opening parenthesis.
#[cycle(expr)]
#[tactic(auto, using(crate::proofs::Expressions::arguments_are))]
pub fn arguments(
    source: &SourceText<'_>,
    cursor: &mut Cursor<'_>,
    levels: u32,
) -> Result<Vec<Expr>, TreeFault>
    ensures { Parses spec.arguments
        source.now levels cursor.old (λ es. map view.expression es.items) result cursor.new }
{
    let args = some_arguments(source, cursor, levels)?;
    cursor.expect(Fixed::CloseParen)?;
    Ok(args)
}

#[cycle(expr)]
fn some_arguments(
    source: &SourceText<'_>,
    cursor: &mut Cursor<'_>,
    levels: u32,
) -> Result<Vec<Expr>, TreeFault>
    ensures { Parses (λ b. spec.listing (spec.expr b))
        source.now levels cursor.old (λ es. map view.expression es.items) result cursor.new }
{
    if !begins_expr(cursor) {
        return Ok(Vec::new(source.alloc));
    }
    let first = ranked(source, cursor, levels, Rank::Or)?;
    let mut args = Vec::with_capacity(source.alloc, 1)?;
    push(&mut args, first)?;
    more_arguments(source, cursor, levels, args)
}

/// The arguments behind the first, each behind a comma.
#[cycle(expr)]
#[tactic(auto, using(crate::proofs::Lists::comma_turns))]
fn more_arguments(
    source: &SourceText<'_>,
    cursor: &mut Cursor<'_>,
    levels: u32,
    args: Vec<Expr>,
) -> Result<Vec<Expr>, TreeFault>
    ensures { ParsesBy (λ b n. more_behind b n (spec.expr b) (map view.expression args.items))
        source.now levels cursor.old (λ es. map view.expression es.items) result cursor.new }
{
    let mut args = args;
    for _turn in 0..cursor.left() {
        if !cursor.is_at(Fixed::Comma) {
            return Ok(args);
        }
        cursor.advance();
        let arg = ranked(source, cursor, levels, Rank::Or)?;
        push(&mut args, arg)?;
    }
    Ok(args)
}

fn push(args: &mut Vec<Expr>, arg: Expr) -> Result<(), AllocError>
    ensures { OnOk result
        (map view.expression args.new.items
        ≡ map view.expression args.old.items ++ view.expression arg ∷ []) }
{
    args.push(arg)?;
    Ok(())
}
