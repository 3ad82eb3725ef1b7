//! The command that takes the words, and what it finds in them.

ghost use Rattle.std.specs.Prelude.{◌≡◌, ◌↔◌, IfOk, false, map, option_map};
ghost use Rattle.std.specs.String.{string_bytes};
ghost use Rattle.clap.specs.Words.{all_of, app_of, first_of, found_of, kind_of, rows_of, rule_of};
ghost use Rattle.rev_words.specs.Command as spec;
ghost use Rattle.rev_words.specs.Answer.{Finds};

use crate::fault::WordsFault;
use clap::error::ErrorKind;
use clap::{Arg, ArgAction, ArgMatches, Command, Error, value_parser};
use std::alloc::{AllocError, Global};

fn mode_argument<'a>(alloc: Global) -> Arg<'a>
    ensures rule { rule_of result ≡ spec.mode }
    ensures local { result.global ≡ false }
{
    Arg::new(alloc, "mode").required(true)
}

fn numbers_argument<'a>(alloc: Global) -> Arg<'a>
    ensures rule { rule_of result ≡ spec.numbers }
    ensures local { result.global ≡ false }
{
    Arg::new(alloc, "numbers").num_args(0..)
}

fn text_option<'a>(alloc: Global, name: &'a str) -> Arg<'a>
    ensures rule { rule_of result ≡ spec.text_option name.entry.now }
    ensures local { result.global ≡ false }
{
    Arg::new(alloc, name).long(name).action(ArgAction::Set)
}

fn number_option<'a>(alloc: Global, name: &'a str) -> Arg<'a>
    ensures rule { rule_of result ≡ spec.number_option name.entry.now }
    ensures local { result.global ≡ false }
{
    text_option(alloc, name).value_parser(value_parser!(u64))
}

fn flag<'a>(alloc: Global, name: &'a str) -> Arg<'a>
    ensures rule { rule_of result ≡ spec.flag name.entry.now }
    ensures local { result.global ≡ false }
{
    Arg::new(alloc, name).long(name).action(ArgAction::SetTrue)
}

/// The command: a mode and numbers, and options before, between and behind them.
fn command<'a>(alloc: Global) -> Result<Command<'a>, AllocError>
    ensures { IfOk result (λ c. app_of c ≡ spec.command) }
{
    Command::new(alloc, "revise")
        .no_binary_name(true)
        .disable_help_flag(true)
        .arg(mode_argument(alloc))?
        .arg(numbers_argument(alloc))?
        .arg(number_option(alloc, "workers"))?
        .arg(number_option(alloc, "segments"))?
        .arg(number_option(alloc, "fuel"))?
        .arg(number_option(alloc, "share"))?
        .arg(flag(alloc, "values"))?
        .arg(text_option(alloc, "schedule"))?
        .arg(number_option(alloc, "seed"))?
        .arg(number_option(alloc, "size"))?
        .arg(text_option(alloc, "before"))
}

/// The fault for an error of the command: wrong usage exactly where the error is no want of memory.
fn fault_of(error: &Error) -> WordsFault
    ensures { (result ≡ WordsFault.Usage) ↔ (kind_of error.now ≡ ErrorKind.OutOfMemory → ⊥) }
{
    match error.kind() {
        ErrorKind::OutOfMemory => WordsFault::OutOfMemory,
        _ => WordsFault::Usage,
    }
}

/// What the command finds in the words.
pub(crate) fn matches_of<'a>(
    alloc: Global,
    words: &'a [String],
) -> Result<ArgMatches<'a>, WordsFault>
    ensures { Finds result (map string_bytes words.entry.now) }
{
    match command(alloc)?.try_get_matches_from(words) {
        Ok(matches) => Ok(matches),
        Err(error) => Err(fault_of(&error)),
    }
}

/// The first value of an argument, if it has one.
pub(crate) fn text_of<'a>(matches: &ArgMatches<'a>, name: &str) -> Option<&'a str>
    ensures { option_map (λ s. s.now) result ≡ first_of name.now (rows_of (found_of matches.now)) }
{
    matches.get_str(name)
}

/// The values of an argument, where it was used.
pub(crate) fn texts_of<'m, 'a>(matches: &'m ArgMatches<'a>, name: &str) -> Option<&'m [&'a str]>
    ensures { option_map (λ s. map (λ v. v.now) s.now) result
        ≡ all_of name.now (rows_of (found_of matches.now)) }
{
    matches.get_strs(name)
}
