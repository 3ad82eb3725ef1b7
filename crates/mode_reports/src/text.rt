//! From a text to the program that it is, or to the report of its first fault.
ghost use Rattle.std.specs.Prelude.{◌≡◌, ◌≤◌, All, IfOk, length};
ghost use Rattle.rev_syntax.specs.Small.{IsSmall};
ghost use Rattle.rev_syntax.specs.Tokens.{IsToken, IsTokens};
ghost use Rattle.rev_syntax.specs.View.{program as whole};
ghost use Rattle.mode_reports.specs.Answer.{source_limit};
ghost use Rattle.mode_reports.specs.Stops.{Meets, report_of_syntax, stop_of};
ghost use Rattle.mode_reports.specs.Texts.{Checks, ChecksTokens, ChecksTree, Cuts, KeepsFuns};
ghost use Rattle.mode_reports.specs.Texts.{KeepsTypes, Reads, fault_at, place_in, report_of_funs};
ghost use Rattle.mode_reports.specs.Texts.{report_of_lexical, report_of_types, unexpected_at};
ghost use Rattle.mode_reports.specs.declared.stop.Stop.TheVariants as stops;

use crate::stop::Stop;
use merge_decl::expand_funs;
use rev_parse::{SyntaxFault, parse};
use rev_report::{Place, Refusal, TextFault};
use rev_syntax::{LexFault, Program, Token, line_column, tokens};
use rev_types::check;
use std::alloc::Global;
use typed_programs::{Expanded, MergeFault, TypeFault, Typed};

/// Line and column of an offset; what is past the end stands at the end.
fn place_in(text: &[u8], at: u32) -> Place
    requires { length text.now ≤ source_limit }
    ensures { result ≡ place_in text.now at }
{
    let end = text.len() as u32;
    let (line, column) = line_column(text, if at < end { at } else { end });
    Place { line, column }
}

/// The report of this fault at this place.
pub fn fault_at(text: &[u8], at: u32, fault: TextFault) -> Stop
    requires { length text.now ≤ source_limit }
    ensures { result ≡ stops.Refused (fault_at text.now at fault) }
{
    Stop::Refused(Refusal::Text {
        place: place_in(text, at),
        fault,
    })
}

/// Why a text has no tokens.
fn lexical(text: &[u8], fault: LexFault) -> Stop
    requires { length text.now ≤ source_limit }
    ensures { result ≡ stop_of (report_of_lexical text.now fault) }
{
    match fault {
        LexFault::BadByte { at } => fault_at(text, at, TextFault::BadByte),
        LexFault::BadNumber { at } => fault_at(text, at, TextFault::BadNumber),
        LexFault::OpenText { at } => fault_at(text, at, TextFault::OpenText),
        LexFault::OutOfMemory => Stop::OutOfMemory,
    }
}

/// An unexpected token, or the end of the text.
fn unexpected_at(text: &[u8], at: u32) -> TextFault
    ensures { result ≡ unexpected_at text.now at }
{
    if at as usize == text.len() {
        TextFault::UnexpectedEnd
    } else {
        TextFault::UnexpectedToken
    }
}

/// Why tokens are no program.
fn syntactic(text: &[u8], fault: SyntaxFault) -> Stop
    requires { length text.now ≤ source_limit }
    ensures { result ≡ stop_of (report_of_syntax text.now fault) }
{
    match fault {
        SyntaxFault::Unexpected { at } => fault_at(text, at, unexpected_at(text, at)),
        SyntaxFault::TooDeep { at } => fault_at(text, at, TextFault::TooDeep),
        SyntaxFault::OutOfMemory => Stop::OutOfMemory,
    }
}

/// Why the funs of a program cannot be applied as they are.
fn of_funs(text: &[u8], fault: MergeFault) -> Stop
    requires { length text.now ≤ source_limit }
    ensures { result ≡ stop_of (report_of_funs text.now fault) }
{
    match fault {
        MergeFault::UnknownFun { at } => fault_at(text, at, TextFault::UnknownFun),
        MergeFault::LaterFun { at } => fault_at(text, at, TextFault::LaterFun),
        MergeFault::Arity { at } => fault_at(text, at, TextFault::ArgumentCount),
        MergeFault::OutOfMemory => Stop::OutOfMemory,
    }
}

/// Which static rule or limit a program breaks.
fn of_types(text: &[u8], fault: TypeFault) -> Stop
    requires { length text.now ≤ source_limit }
    ensures { result ≡ stop_of (report_of_types text.now fault) }
{
    match fault {
        TypeFault::UnknownName { at } => fault_at(text, at, TextFault::UnknownName),
        TypeFault::Redeclared { at } => fault_at(text, at, TextFault::Redeclared),
        TypeFault::WrongType { at } => fault_at(text, at, TextFault::WrongType),
        TypeFault::WrongCount { at } => fault_at(text, at, TextFault::WrongCount),
        TypeFault::NoReturn { at } => fault_at(text, at, TextFault::NoReturn),
        TypeFault::LimitOf { at, which, limit } => Stop::Refused(Refusal::OverLimit {
            place: place_in(text, at),
            limit,
            which,
        }),
        TypeFault::OutOfMemory => Stop::OutOfMemory,
    }
}

fn tokens_of(alloc: Global, text: &[u8]) -> Result<Vec<Token>, Stop>
    requires { length text.now ≤ source_limit }
    ensures meets { Meets (λ v. v.items) result (Cuts text.now) }
    ensures slices { IfOk result (λ v. All (IsToken text.now) v.items) }
{
    match tokens(alloc, text) {
        Ok(tokens) => Ok(tokens),
        Err(fault) => Err(lexical(text, fault)),
    }
}

fn program_of(alloc: Global, text: &[u8], tokens: &[Token]) -> Result<Program, Stop>
    requires limit { length text.now ≤ source_limit }
    requires whole { IsTokens text.now tokens.now }
    requires slices { All (IsToken text.now) tokens.now }
    ensures meets { Meets whole result (Reads text.now tokens.now) }
    ensures small { IfOk result (λ p. IsSmall (whole p)) }
{
    match parse(alloc, text, tokens) {
        Ok(program) => Ok(program),
        Err(fault) => Err(syntactic(text, fault)),
    }
}

/// The program with its funs, if it keeps the rules on these.
fn expanded_of(alloc: Global, text: &[u8], program: Program) -> Result<Expanded, Stop>
    requires limit { length text.now ≤ source_limit }
    requires small { IsSmall (whole program) }
    ensures { Meets (λ e. whole e.program) result (KeepsFuns text.now (whole program)) }
{
    match expand_funs(alloc, program) {
        Ok(expanded) => Ok(expanded),
        Err(fault) => Err(of_funs(text, fault)),
    }
}

/// The program with its tables, if it keeps all static rules.
fn typed_of(alloc: Global, text: &[u8], expanded: Expanded) -> Result<Typed, Stop>
    requires { length text.now ≤ source_limit }
    ensures { Meets (λ t. whole t.expanded.program) result
        (KeepsTypes text.now (whole expanded.program)) }
{
    match check(alloc, expanded) {
        Ok(typed) => Ok(typed),
        Err(fault) => Err(of_types(text, fault)),
    }
}

/// The program with its tables, if it keeps all rules.
fn checked_tree(alloc: Global, text: &[u8], program: Program) -> Result<Typed, Stop>
    requires limit { length text.now ≤ source_limit }
    requires small { IsSmall (whole program) }
    ensures { Meets (λ t. whole t.expanded.program) result (ChecksTree text.now (whole program)) }
{
    let expanded = expanded_of(alloc, text, program)?;
    typed_of(alloc, text, expanded)
}

/// The program that tokens are, if it keeps all rules.
fn checked_tokens(alloc: Global, text: &[u8], tokens: &[Token]) -> Result<Typed, Stop>
    requires limit { length text.now ≤ source_limit }
    requires whole { IsTokens text.now tokens.now }
    requires slices { All (IsToken text.now) tokens.now }
    ensures { Meets (λ t. whole t.expanded.program) result (ChecksTokens text.now tokens.now) }
{
    let program = program_of(alloc, text, tokens)?;
    checked_tree(alloc, text, program)
}

/// The program that a text is, if it keeps all rules.
pub fn checked(alloc: Global, text: &[u8]) -> Result<Typed, Stop>
    requires { length text.now ≤ source_limit }
    ensures { Meets (λ t. whole t.expanded.program) result (Checks text.now) }
{
    let tokens = tokens_of(alloc, text)?;
    checked_tokens(alloc, text, tokens.as_slice())
}
