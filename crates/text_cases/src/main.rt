//! Texts for the lexer, the parser, the checker of the affine rule and the reader of traces, by a
//! table on the standard input. `README.md` tells the form of the table.
#![tactic(auto)]

mod answers;
mod programs;
mod rows;

use case_tables::{Pieces, Tally, play_table};
use rows::{MARKS, play};
use std::io;

fn main(rt: HostRuntime) -> io::Result<()> {
    let table = io::read_to_string(rt.alloc(), rt.stdin())?;
    let play = |pieces: &mut Pieces, tally: &mut Tally, row: &str| play(&rt, pieces, tally, row);
    play_table(&rt, MARKS, table.as_str(), play)
}
