//! What the words of a call say.
//!
//! One command of `clap`, without subcommands and without flags for help or version, takes the
//! words; the rules of the single values stand beside it.
#![tactic(auto)]

ghost use Rattle.std.specs.Prelude.{IfOk, map};
ghost use Rattle.std.specs.String.{string_bytes};
ghost use Rattle.clap.specs.Words.{found_of, rows_of};
ghost use Rattle.rev_words.specs.Reading.{KeepsRanges, reading, said};
ghost use Rattle.rev_words.specs.Answer.{Gives};

mod command;
mod fault;
mod laws;
mod load;
mod numbers;
mod settings;

use clap::ArgMatches;
use command::matches_of;
pub use fault::WordsFault;
pub use laws::{list_law, row_laws, schedule_law};
pub use load::load_text;
use numbers::{before_of, numbers_of, schedule_of};
use rev_num::Items;
use settings::{is_flagged, mode_of, setting, small_setting};
use std::alloc::Global;

/// What a call does.
#[derive(Clone, Copy, PartialEq, Eq)]
pub enum Mode {
    /// Reads the text of a program, runs it and reports its outcome.
    Run,
    /// Reads the text of a program and says whether it keeps all rules.
    Check,
    /// Makes the text of a program from a seed and a size, runs it and reports its outcome.
    Load,
    /// Reads a code file and lists its code.
    Dis,
    /// Reads a code file, runs its code and reports its outcome.
    Exec,
    /// Reads the text of a program and writes the file of its code.
    Emit,
    /// Reads the text of a program, runs it and writes the trace of its run.
    Trace,
    /// Reads the text of a program and a trace behind it, and says whether the trace is that of the
    /// program's run.
    Audit,
    /// Reads the text of a program, runs it by a schedule and reports its outcome.
    Replay,
    /// Reads the text of a program, runs it on threads and writes the schedule that they made.
    Order,
    /// Reads the text of a program that keeps the affine rule, runs it, and writes what `main` prints
    /// while it runs.
    Stream,
    /// Reads the text of a program, runs it with the input numbers of the run before, and runs it
    /// again with what can be kept of that run.
    Repeat,
}

/// What words say.
#[derive(Drop)]
pub struct Words {
    pub mode: Mode,
    /// The input numbers, at most 1,024.
    pub numbers: Items<i64>,
    /// How many workers run revisions: 1 to 64.
    pub workers: u32,
    /// How many segments the table has: 0 to 65,536.
    pub segments: u32,
    /// The fuel of `main`: 1 to 4,000,000,000.
    pub fuel: u64,
    /// The most fuel that a fork gives to a child: 0 to 4,000,000,000.
    pub share: u64,
    /// Whether the values of the shared variables are shown after the text.
    pub values: bool,
    /// The revisions that step, one after another, at most 65,536.
    pub schedule: Items<u32>,
    /// The input numbers of the run before, at most 1,024.
    pub before: Items<i64>,
    /// The seed of a generated program: 0 to 2,147,483,647.
    pub seed: u32,
    /// The size of a generated program: 1 to 500.
    pub size: u32,
}

/// What the words say. The words come without the program's name.
pub fn read_words(alloc: Global, words: &[String]) -> Result<Words, WordsFault>
    ensures reading { Gives (λ w. w) result (reading (map string_bytes words.now)) }
    ensures ranges { IfOk result (λ w. KeepsRanges w) }
{
    let matches = matches_of(alloc, words)?;
    words_of(alloc, &matches)
}

/// What the matches of the command say.
fn words_of(alloc: Global, matches: &ArgMatches) -> Result<Words, WordsFault>
    ensures { Gives (λ w. w) result (said (rows_of (found_of matches.now))) }
{
    let mode = mode_of(matches).ok_or(WordsFault::Usage)?;
    let numbers = numbers_of(alloc, matches)?;
    let workers = small_setting(matches, "workers", 1, 64, 4).ok_or(WordsFault::Usage)?;
    let segments = small_setting(matches, "segments", 0, 65_536, 1_024).ok_or(WordsFault::Usage)?;
    let fuel = setting(matches, "fuel", 1, 4_000_000_000, 1_000_000_000).ok_or(WordsFault::Usage)?;
    let share = setting(matches, "share", 0, 4_000_000_000, 1_000_000).ok_or(WordsFault::Usage)?;
    let schedule = schedule_of(alloc, matches)?;
    let before = before_of(alloc, matches)?;
    let seed = small_setting(matches, "seed", 0, 2_147_483_647, 1).ok_or(WordsFault::Usage)?;
    let size = small_setting(matches, "size", 1, 500, 200).ok_or(WordsFault::Usage)?;
    Ok(Words {
        mode,
        numbers: Items::from_vec(numbers),
        workers,
        segments,
        fuel,
        share,
        values: is_flagged(matches, "values"),
        schedule: Items::from_vec(schedule),
        before: Items::from_vec(before),
        seed,
        size,
    })
}
