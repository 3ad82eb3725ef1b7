//! The mode and the single settings.

ghost use Rattle.std.specs.Prelude.{◌≡◌, ◌≤◌, IfSome, codes, option_and_then};
ghost use Rattle.clap.specs.Words.{first_of, found_of, rows_of};
ghost use Rattle.rev_words.specs.Reading.{is_flagged, mode_named, natural_of, setting, within};

use crate::Mode;
use crate::command::text_of;
use clap::ArgMatches;

/// The number that a text spells. A plus may stand before it.
fn natural_of(text: &str) -> Option<u64>
    ensures { result ≡ natural_of text.now }
{
    text.parse::<u64>().ok()
}

fn within(least: u64, most: u64, number: u64) -> Option<u64>
    ensures value { result ≡ within least most number }
    ensures bound { IfSome result (λ n. n ≤ most) }
{
    if least <= number && number <= most {
        Some(number)
    } else {
        None
    }
}

/// The number of an option, if it keeps its range, or its default.
pub(crate) fn setting(
    matches: &ArgMatches,
    name: &str,
    least: u64,
    most: u64,
    default: u64,
) -> Option<u64>
    ensures { let text = first_of name.now (rows_of (found_of matches.now)) in
        result ≡ setting least most default text }
{
    match text_of(matches, name) {
        Some(text) => within(least, most, natural_of(text)?),
        None => Some(default),
    }
}

/// The same, where 32 bits hold each number of the range.
pub(crate) fn small_setting(
    matches: &ArgMatches,
    name: &str,
    least: u32,
    most: u32,
    default: u32,
) -> Option<u32>
    ensures { let text = first_of name.now (rows_of (found_of matches.now)) in
        result ≡ setting least most default text }
{
    match text_of(matches, name) {
        Some(text) => Some(within(least as u64, most as u64, natural_of(text)?)? as u32),
        None => Some(default),
    }
}

fn mode_named(text: &str) -> Option<Mode>
    ensures { result ≡ mode_named text.now }
{
    match text {
        "run" => Some(Mode::Run),
        "check" => Some(Mode::Check),
        "load" => Some(Mode::Load),
        "dis" => Some(Mode::Dis),
        "exec" => Some(Mode::Exec),
        "emit" => Some(Mode::Emit),
        "trace" => Some(Mode::Trace),
        "audit" => Some(Mode::Audit),
        "replay" => Some(Mode::Replay),
        "order" => Some(Mode::Order),
        "stream" => Some(Mode::Stream),
        "repeat" => Some(Mode::Repeat),
        _ => None,
    }
}

/// The mode that the first word that is no option names, if it is built.
pub(crate) fn mode_of(matches: &ArgMatches) -> Option<Mode>
    ensures { let text = first_of (codes "mode") (rows_of (found_of matches.now)) in
        result ≡ option_and_then mode_named text }
{
    mode_named(text_of(matches, "mode")?)
}

/// Whether the flag was used.
pub(crate) fn is_flagged(matches: &ArgMatches, name: &str) -> bool
    ensures { result ≡ is_flagged (first_of name.now (rows_of (found_of matches.now))) }
{
    match text_of(matches, name) {
        Some(text) => text == "true",
        None => false,
    }
}
