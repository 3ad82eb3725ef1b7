//! What an instruction leaves to be done with the words and the registers.

ghost use Rattle.std.specs.Prelude.{◌≡◌, length};
ghost use Rattle.block_run.specs.Deeds.{registers_after, stop_after, words_after, Fits};
ghost use Rattle.block_run.specs.Stops.{stop_of};

use crate::registers::{Act, BlockTrap, Registers};

/// What is left to be done when an instruction has read what it needs. Instructions share few
/// deeds, so that there are few places from which a loop goes on: the compiler then puts a jump to
/// the next instruction behind each, in place of one for all.
#[derive(Clone, Copy)]
pub enum Deed {
    /// Puts the word on the stack.
    Pushes(u64),
    /// Puts the word in place of the one on top.
    Puts(u64),
    /// Puts the word in place of the two on top.
    PutsTwo(u64),
    /// Takes the word on top.
    Takes,
    /// Goes on at the place.
    Jumps(u32),
    /// Goes on at the next place.
    Goes,
    Traps(BlockTrap),
    /// Nothing: the instruction applies a fun, calls, returns, prints, or meets another revision.
    Leaves,
}

/// Does what an instruction left to be done.
#[inline(always)]
pub(crate) fn settle(words: &mut [u64], r: &mut Registers, deed: Deed) -> Act
    requires fits { Fits deed (length words.old) r.old }
    ensures words { words.new ≡ words_after deed words.old r.old }
    ensures registers { r.new ≡ registers_after deed r.old }
    ensures stop { stop_of result ≡ stop_after deed }
{
    match deed {
        Deed::Pushes(word) => {
            words[r.top] = word;
            r.top += 1;
            r.at += 1;
            Act::Goes
        },
        Deed::Puts(word) => {
            words[r.top - 1] = word;
            r.at += 1;
            Act::Goes
        },
        Deed::PutsTwo(word) => {
            words[r.top - 2] = word;
            r.top -= 1;
            r.at += 1;
            Act::Goes
        },
        Deed::Takes => {
            r.top -= 1;
            r.at += 1;
            Act::Goes
        },
        Deed::Jumps(to) => {
            r.at = to;
            Act::Goes
        },
        Deed::Goes => {
            r.at += 1;
            Act::Goes
        },
        Deed::Traps(fault) => Act::Traps(fault),
        Deed::Leaves => Act::Leaves,
    }
}
