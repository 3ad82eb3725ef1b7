//! The parser of declarations and programs.
ghost use Rattle.std.specs.Prelude.{◌≡◌, ◌≤ℤ◌, ◌++◌, [], ◌∷◌, OnOk, pos, neg_ℤ, map, option_map};
ghost use Rattle.std.specs.Prelude.{length};
ghost use Rattle.rev_expressions.specs.Grammar as g;
ghost use Rattle.rev_expressions.specs.Declarations as spec;
ghost use Rattle.rev_expressions.specs.Lists.{more_listed};
ghost use Rattle.rev_expressions.specs.Parse.{parse};
ghost use Rattle.rev_expressions.specs.Parses.{Parses, ParsesBy};
ghost use Rattle.rev_expressions.specs.Reads.{Reads, same};
ghost use Rattle.rev_syntax.specs.declared.token.Fixed.TheVariants as s;
ghost use Rattle.rev_parse.specs.Pieces as pieces;
ghost use Rattle.rev_parse.specs.Pieces.{AreNatural, plain, declaration_begins};
ghost use Rattle.rev_syntax.specs.View as view;

use crate::statement::block;
use rev_expressions::{Cursor, SourceText, TreeFault, expr, name, within};
use rev_num::{Value, ValueKind};
use rev_syntax::{Const, Decl, Expr, Fixed, Name, Param, Program, Size, TokenKind};
use std::alloc::AllocError;

/// A kind, with the offset of its word.
#[derive(Clone, Copy, Drop)]
struct KindAt {
    at: u32,
    kind: ValueKind,
}

/// The name and the parameters of a fun or a procedure.
#[derive(Drop)]
struct Heading {
    name: Name,
    params: Vec<Param>,
}

/// A shared variable's name, kind and size.
#[derive(Drop)]
struct Typed {
    name: Name,
    kind: KindAt,
    size: Option<Size>,
}

/// The names that a merge gives to the joiner's, the joinee's and the root's value.
#[derive(Drop)]
struct Versions {
    main: Name,
    join: Name,
    root: Name,
}

/// Reads a kind.
#[tactic(auto, unfolding(rev_expressions::specs::Reader::read, rev_expressions::specs::Declarations::kind))]
fn kind(cursor: &mut Cursor<'_>) -> Result<KindAt, TreeFault>
    ensures { Reads
        (plain spec.kind cursor.old.rest.now) pieces.kind_at result cursor.new.rest.now }
{
    let Some(token) = cursor.peek() else {
        return Err(TreeFault::Unexpected);
    };
    let at = token.start;
    match token.kind {
        TokenKind::Fixed(Fixed::KindInt) => {
            cursor.advance();
            Ok(KindAt {
                at,
                kind: ValueKind::Int,
            })
        }
        TokenKind::Fixed(Fixed::KindBool) => {
            cursor.advance();
            Ok(KindAt {
                at,
                kind: ValueKind::Bool,
            })
        }
        TokenKind::Fixed(Fixed::KindRev) => {
            cursor.advance();
            Ok(KindAt {
                at,
                kind: ValueKind::Rev,
            })
        }
        _ => Err(TreeFault::Unexpected),
    }
}

/// A start value.
#[tactic(auto, unfolding(rev_expressions::specs::Reader::read, rev_expressions::specs::Declarations::constant))]
fn constant(cursor: &mut Cursor<'_>) -> Result<Const, TreeFault>
    requires { AreNatural cursor.old.rest.now }
    ensures { Reads
        (plain spec.constant cursor.old.rest.now) view.constant result cursor.new.rest.now }
{
    let Some(token) = cursor.peek() else {
        return Err(TreeFault::Unexpected);
    };
    let at = token.start;
    match token.kind {
        TokenKind::Fixed(Fixed::Minus) => {
            cursor.advance();
            negative(cursor, at)
        }
        TokenKind::Int(n) => {
            cursor.advance();
            Ok(Const {
                at,
                value: Value::Int(n),
            })
        }
        TokenKind::Fixed(Fixed::True) => {
            cursor.advance();
            Ok(Const {
                at,
                value: Value::Bool(true),
            })
        }
        TokenKind::Fixed(Fixed::False) => {
            cursor.advance();
            Ok(Const {
                at,
                value: Value::Bool(false),
            })
        }
        TokenKind::Fixed(Fixed::NoRev) => {
            cursor.advance();
            Ok(Const {
                at,
                value: Value::Rev(None),
            })
        }
        _ => Err(TreeFault::Unexpected),
    }
}

/// The negative of a number of the text.
fn negated(n: i64) -> i64
    requires { pos 0 ≤ℤ n }
    ensures { result ≡ neg_ℤ n }
{
    -n
}

/// A number behind a minus sign, which stands at this place.
#[tactic(auto, unfolding(rev_expressions::specs::Reader::read, crate::specs::Pieces::number))]
fn negative(cursor: &mut Cursor<'_>, at: u32) -> Result<Const, TreeFault>
    requires { AreNatural cursor.old.rest.now }
    ensures { Reads
        (pieces.negative_of at (plain pieces.number cursor.old.rest.now)) view.constant result
        cursor.new.rest.now }
{
    let Some(token) = cursor.peek() else {
        return Err(TreeFault::Unexpected);
    };
    match token.kind {
        TokenKind::Int(n) => {
            cursor.advance();
            Ok(Const {
                at,
                value: Value::Int(negated(n)),
            })
        }
        _ => Err(TreeFault::Unexpected),
    }
}

/// The first value of a variable, if one is given.
#[tactic(auto, using(crate::proofs::DeclarationRules::first_value_cases))]
fn first_value(cursor: &mut Cursor<'_>) -> Result<Option<Const>, TreeFault>
    requires { AreNatural cursor.old.rest.now }
    ensures { Reads (plain spec.first_value cursor.old.rest.now)
        (option_map view.constant) result cursor.new.rest.now }
{
    if !cursor.is_at(Fixed::Assign) {
        return Ok(None);
    }
    cursor.advance();
    let first = constant(cursor)?;
    Ok(Some(first))
}

/// A number of cells.
#[tactic(auto, unfolding(rev_expressions::specs::Reader::read, crate::specs::Pieces::count))]
fn count(cursor: &mut Cursor<'_>) -> Result<Size, TreeFault>
    ensures { Reads
        (plain pieces.count cursor.old.rest.now) view.array_size result cursor.new.rest.now }
{
    let Some(token) = cursor.peek() else {
        return Err(TreeFault::Unexpected);
    };
    match token.kind {
        TokenKind::Int(cells) => {
            cursor.advance();
            Ok(Size {
                at: token.start,
                cells,
            })
        }
        _ => Err(TreeFault::Unexpected),
    }
}

/// The number of cells of an array behind its opening bracket.
#[tactic(auto, using(crate::proofs::DeclarationRules::cells_are))]
fn cells(cursor: &mut Cursor<'_>) -> Result<Size, TreeFault>
    ensures { Reads
        (plain spec.cells cursor.old.rest.now) view.array_size result cursor.new.rest.now }
{
    let size = count(cursor)?;
    cursor.expect(Fixed::CloseBracket)?;
    Ok(size)
}

/// The size of a variable, if it is an array.
#[tactic(auto, using(crate::proofs::DeclarationRules::size_cases))]
fn size(cursor: &mut Cursor<'_>, levels: u32) -> Result<Option<Size>, TreeFault>
    ensures { Reads (parse [] levels spec.size cursor.old.rest.now)
        (option_map view.array_size) result cursor.new.rest.now }
{
    if !cursor.is_at(Fixed::OpenBracket) {
        return Ok(None);
    }
    within(levels)?;
    cursor.advance();
    let size = cells(cursor)?;
    Ok(Some(size))
}

/// A parameter.
#[tactic(auto, using(crate::proofs::DeclarationRules::param_is))]
fn param(source: &SourceText<'_>, cursor: &mut Cursor<'_>, levels: u32) -> Result<Param, TreeFault>
    ensures { Parses spec.param source.now levels cursor.old view.parameter result cursor.new }
{
    let name = name(source, cursor, levels)?;
    cursor.expect(Fixed::Colon)?;
    let kind = kind(cursor)?;
    Ok(Param {
        name,
        kind_at: kind.at,
        kind: kind.kind,
    })
}

fn push_param(params: &mut Vec<Param>, param: Param) -> Result<(), AllocError>
    ensures { OnOk result
        (pieces.parameters params.new.items
        ≡ pieces.parameters params.old.items ++ view.parameter param ∷ []) }
{
    params.push(param)?;
    Ok(())
}

/// The parameters behind the first, each behind a comma.
#[tactic(auto, using(rev_expressions::proofs::Lists::comma_turns))]
fn more_params(
    source: &SourceText<'_>,
    cursor: &mut Cursor<'_>,
    levels: u32,
    params: Vec<Param>,
) -> Result<Vec<Param>, TreeFault>
    ensures { ParsesBy
        (λ b n ts. more_listed b n (spec.param b) (length ts) (pieces.parameters params.items) ts)
        source.now levels cursor.old (λ ps. pieces.parameters ps.items) result cursor.new }
{
    let mut params = params;
    for _turn in 0..cursor.left() {
        if !cursor.is_at(Fixed::Comma) {
            return Ok(params);
        }
        cursor.advance();
        let param = param(source, cursor, levels)?;
        push_param(&mut params, param)?;
    }
    Ok(params)
}

fn some_params(
    source: &SourceText<'_>,
    cursor: &mut Cursor<'_>,
    levels: u32,
) -> Result<Vec<Param>, TreeFault>
    ensures { Parses (λ b. g.listing (spec.param b))
        source.now levels cursor.old (λ ps. pieces.parameters ps.items) result cursor.new }
{
    let mut params = Vec::new(source.alloc);
    if !cursor.is_at_name() {
        return Ok(params);
    }
    let first = param(source, cursor, levels)?;
    push_param(&mut params, first)?;
    more_params(source, cursor, levels, params)
}

/// Parameters behind their opening parenthesis.
#[tactic(auto, using(crate::proofs::DeclarationRules::params_are))]
fn params(
    source: &SourceText<'_>,
    cursor: &mut Cursor<'_>,
    levels: u32,
) -> Result<Vec<Param>, TreeFault>
    ensures { Parses spec.params
        source.now levels cursor.old (λ ps. pieces.parameters ps.items) result cursor.new }
{
    let params = some_params(source, cursor, levels)?;
    cursor.expect(Fixed::CloseParen)?;
    Ok(params)
}

/// The parameters of a fun or a procedure, in their parentheses.
#[tactic(auto, using(crate::proofs::DeclarationRules::formal_cases))]
fn formal(
    source: &SourceText<'_>,
    cursor: &mut Cursor<'_>,
    levels: u32,
) -> Result<Vec<Param>, TreeFault>
    ensures { Parses spec.formal
        source.now levels cursor.old (λ ps. pieces.parameters ps.items) result cursor.new }
{
    if !cursor.is_at(Fixed::OpenParen) {
        return Err(TreeFault::Unexpected);
    }
    let inner = within(levels)?;
    cursor.advance();
    params(source, cursor, inner)
}

/// The three names of a merge behind their opening parenthesis.
#[tactic(auto, using(crate::proofs::DeclarationRules::names_are))]
fn names(
    source: &SourceText<'_>,
    cursor: &mut Cursor<'_>,
    levels: u32,
) -> Result<Versions, TreeFault>
    ensures { Parses spec.names source.now levels cursor.old pieces.versions result cursor.new }
{
    let main = name(source, cursor, levels)?;
    cursor.expect(Fixed::Comma)?;
    let join = name(source, cursor, levels)?;
    cursor.expect(Fixed::Comma)?;
    let root = name(source, cursor, levels)?;
    cursor.expect(Fixed::CloseParen)?;
    Ok(Versions { main, join, root })
}

/// The three names of a merge, in their parentheses.
#[tactic(auto, using(crate::proofs::DeclarationRules::three_names_cases))]
fn three_names(
    source: &SourceText<'_>,
    cursor: &mut Cursor<'_>,
    levels: u32,
) -> Result<Versions, TreeFault>
    ensures { Parses (λ _. pieces.three_names)
        source.now levels cursor.old pieces.versions result cursor.new }
{
    if !cursor.is_at(Fixed::OpenParen) {
        return Err(TreeFault::Unexpected);
    }
    let inner = within(levels)?;
    cursor.advance();
    names(source, cursor, inner)
}

/// A name with its parameters.
#[tactic(auto, using(crate::proofs::DeclarationRules::head_is))]
fn head(source: &SourceText<'_>, cursor: &mut Cursor<'_>, levels: u32) -> Result<Heading, TreeFault>
    ensures { Parses spec.head source.now levels cursor.old pieces.heading result cursor.new }
{
    let name = name(source, cursor, levels)?;
    let params = formal(source, cursor, levels)?;
    Ok(Heading { name, params })
}

/// The expression that a fun or a merge stands for, between `=` and `;`.
#[tactic(auto, using(crate::proofs::DeclarationRules::meaning_is))]
fn meaning(source: &SourceText<'_>, cursor: &mut Cursor<'_>, levels: u32) -> Result<Expr, TreeFault>
    ensures { Parses spec.meaning source.now levels cursor.old view.expression result cursor.new }
{
    cursor.expect(Fixed::Assign)?;
    let body = expr(source, cursor, levels)?;
    cursor.expect(Fixed::Semicolon)?;
    Ok(body)
}

/// What follows the word `fun`.
#[tactic(auto, using(crate::proofs::DeclarationRules::fun_is))]
fn fun(source: &SourceText<'_>, cursor: &mut Cursor<'_>, levels: u32) -> Result<Decl, TreeFault>
    ensures { Parses spec.fun_form source.now levels cursor.old view.declaration result cursor.new }
{
    let head = head(source, cursor, levels)?;
    cursor.expect(Fixed::Colon)?;
    let result = kind(cursor)?;
    let body = meaning(source, cursor, levels)?;
    Ok(Decl::Fun {
        name: head.name,
        params: head.params,
        result: result.kind,
        body,
    })
}

/// What follows the word `merge`.
#[tactic(auto, using(crate::proofs::DeclarationRules::merge_is))]
fn merge(source: &SourceText<'_>, cursor: &mut Cursor<'_>, levels: u32) -> Result<Decl, TreeFault>
    ensures { Parses spec.merge_form
        source.now levels cursor.old view.declaration result cursor.new }
{
    let name = name(source, cursor, levels)?;
    let versions = three_names(source, cursor, levels)?;
    let body = meaning(source, cursor, levels)?;
    Ok(Decl::Merge {
        name,
        main: versions.main,
        join: versions.join,
        root: versions.root,
        body,
    })
}

/// A shared variable with its kind, and its size if it is an array.
#[tactic(auto, using(crate::proofs::DeclarationRules::variable_is))]
fn variable(
    source: &SourceText<'_>,
    cursor: &mut Cursor<'_>,
    levels: u32,
) -> Result<Typed, TreeFault>
    ensures { Parses spec.variable source.now levels cursor.old pieces.typed result cursor.new }
{
    let name = name(source, cursor, levels)?;
    cursor.expect(Fixed::Colon)?;
    let kind = kind(cursor)?;
    let size = size(cursor, levels)?;
    Ok(Typed { name, kind, size })
}

fn shared(variable: Typed, by: Option<Name>, first: Option<Const>) -> Decl
    ensures { view.declaration result
        ≡ spec.shared_of [] (pieces.typed variable) (option_map view.placed_name by)
        (option_map view.constant first) }
{
    Decl::Shared {
        name: variable.name,
        by,
        kind_at: variable.kind.at,
        holds: variable.kind.kind,
        size: variable.size,
        first,
    }
}

/// What follows the word `versioned`.
#[tactic(auto, using(crate::proofs::DeclarationRules::versioned_is))]
fn versioned(
    source: &SourceText<'_>,
    cursor: &mut Cursor<'_>,
    levels: u32,
) -> Result<Decl, TreeFault>
    requires { AreNatural cursor.old.rest.now }
    ensures { Parses spec.versioned_form
        source.now levels cursor.old view.declaration result cursor.new }
{
    let variable = variable(source, cursor, levels)?;
    let first = first_value(cursor)?;
    cursor.expect(Fixed::Semicolon)?;
    Ok(shared(variable, None, first))
}

/// What follows the word `cumulative`.
#[tactic(auto, using(crate::proofs::DeclarationRules::cumulative_is))]
fn cumulative(
    source: &SourceText<'_>,
    cursor: &mut Cursor<'_>,
    levels: u32,
) -> Result<Decl, TreeFault>
    requires { AreNatural cursor.old.rest.now }
    ensures { Parses spec.cumulative_form
        source.now levels cursor.old view.declaration result cursor.new }
{
    let variable = variable(source, cursor, levels)?;
    cursor.expect(Fixed::By)?;
    let by = name(source, cursor, levels)?;
    let first = first_value(cursor)?;
    cursor.expect(Fixed::Semicolon)?;
    Ok(shared(variable, Some(by), first))
}

/// The kind that a procedure returns, if it is given.
#[tactic(auto, using(crate::proofs::DeclarationRules::result_kind_cases))]
fn result_kind(cursor: &mut Cursor<'_>) -> Result<Option<ValueKind>, TreeFault>
    ensures { Reads (plain pieces.result_kind cursor.old.rest.now) same result cursor.new.rest.now }
{
    if !cursor.is_at(Fixed::Colon) {
        return Ok(None);
    }
    cursor.advance();
    let result = kind(cursor)?;
    Ok(Some(result.kind))
}

/// What follows the word `proc`.
#[tactic(auto, using(crate::proofs::DeclarationRules::proc_is))]
fn procedure(
    source: &SourceText<'_>,
    cursor: &mut Cursor<'_>,
    levels: u32,
) -> Result<Decl, TreeFault>
    ensures { Parses spec.proc_form
        source.now levels cursor.old view.declaration result cursor.new }
{
    let head = head(source, cursor, levels)?;
    let result = result_kind(cursor)?;
    let body = block(source, cursor, levels)?;
    Ok(Decl::Proc {
        name: head.name,
        params: head.params,
        result,
        body,
    })
}

/// A declaration. No number of the tokens is negative.
pub fn declaration(
    source: &SourceText<'_>,
    cursor: &mut Cursor<'_>,
    levels: u32,
) -> Result<Decl, TreeFault>
    requires { AreNatural cursor.old.rest.now }
    ensures { Parses spec.declaration
        source.now levels cursor.old view.declaration result cursor.new }
{
    let Some(token) = cursor.peek() else {
        return Err(TreeFault::Unexpected);
    };
    match token.kind {
        TokenKind::Fixed(Fixed::Fun) => {
            cursor.advance();
            fun(source, cursor, levels)
        }
        TokenKind::Fixed(Fixed::Merge) => {
            cursor.advance();
            merge(source, cursor, levels)
        }
        TokenKind::Fixed(Fixed::Versioned) => {
            cursor.advance();
            versioned(source, cursor, levels)
        }
        TokenKind::Fixed(Fixed::Cumulative) => {
            cursor.advance();
            cumulative(source, cursor, levels)
        }
        TokenKind::Fixed(Fixed::Proc) => {
            cursor.advance();
            procedure(source, cursor, levels)
        }
        _ => Err(TreeFault::Unexpected),
    }
}

/// Whether a declaration comes.
#[tactic(auto, unfolding(rev_expressions::specs::Declarations::declaration))]
fn begins_declaration(cursor: &Cursor<'_>) -> bool
    ensures { result ≡ declaration_begins cursor.now.rest.now }
{
    let Some(token) = cursor.peek() else {
        return false;
    };
    matches!(
        token.kind,
        TokenKind::Fixed(Fixed::Fun)
            | TokenKind::Fixed(Fixed::Merge)
            | TokenKind::Fixed(Fixed::Versioned)
            | TokenKind::Fixed(Fixed::Cumulative)
            | TokenKind::Fixed(Fixed::Proc)
    )
}

fn push_decl(decls: &mut Vec<Decl>, decl: Decl) -> Result<(), AllocError>
    ensures { OnOk result
        (map view.declaration decls.new.items
        ≡ map view.declaration decls.old.items ++ view.declaration decl ∷ []) }
{
    decls.push(decl)?;
    Ok(())
}

/// The declarations up to the first token that begins none. No number of the tokens is negative.
#[tactic(auto, using(crate::proofs::DeclarationRules::declaration_turns))]
pub fn declarations(
    source: &SourceText<'_>,
    cursor: &mut Cursor<'_>,
    levels: u32,
) -> Result<Vec<Decl>, TreeFault>
    requires { AreNatural cursor.old.rest.now }
    ensures { Parses spec.declarations
        source.now levels cursor.old (λ ds. map view.declaration ds.items) result cursor.new }
{
    let mut found = Vec::new(source.alloc);
    for _turn in 0..cursor.left() {
        if !begins_declaration(cursor) {
            return Ok(found);
        }
        let decl = declaration(source, cursor, levels)?;
        push_decl(&mut found, decl)?;
    }
    Ok(found)
}

/// Reads the word `main`, and returns its place.
#[tactic(auto, unfolding(rev_expressions::specs::Reader::read))]
fn main_word(cursor: &mut Cursor<'_>) -> Result<u32, TreeFault>
    ensures { Reads (plain (g.place s.Main) cursor.old.rest.now) same result cursor.new.rest.now }
{
    let Some(token) = cursor.peek() else {
        return Err(TreeFault::Unexpected);
    };
    match token.kind {
        TokenKind::Fixed(Fixed::Main) => {
            cursor.advance();
            Ok(token.start)
        }
        _ => Err(TreeFault::Unexpected),
    }
}

/// A program, with its tokens left that stand behind the block of `main`. No number of the tokens
/// is negative.
#[tactic(auto, using(crate::proofs::DeclarationRules::program_is))]
pub fn program(
    source: &SourceText<'_>,
    cursor: &mut Cursor<'_>,
    levels: u32,
) -> Result<Program, TreeFault>
    requires { AreNatural cursor.old.rest.now }
    ensures { Parses spec.program source.now levels cursor.old view.program result cursor.new }
{
    let decls = declarations(source, cursor, levels)?;
    let main_at = main_word(cursor)?;
    let main = block(source, cursor, levels)?;
    Ok(Program {
        decls,
        main_at,
        main,
    })
}
