//! The rows of a table, one after another.

use crate::fault::CaseFault;
use crate::marked::has_only;
use crate::pieces::Pieces;
use crate::tally::Tally;
use std::io;

/// Plays the rows of a table, which have an empty line between them, and prints the counts. A row
/// with a line that has none of these marks is malformed, and is not given to `play`.
pub fn play_table<R: AllocGlobal + Print, F: Fn(&mut Pieces, &mut Tally, &str) -> io::Result<()>>(
    rt: &R,
    marks: &[&str],
    table: &str,
    play: F,
) -> io::Result<()>
    requires { F.IsAlwaysCallable play }
{
    let mut pieces = Pieces::new(rt.alloc());
    let mut tally = Tally::new();
    for row in table.trim_end().split("\n\n") {
        if has_only(row, marks) {
            play(&mut pieces, &mut tally, row)?;
        } else {
            tally.count(rt, row, Err(CaseFault::Malformed))?;
        }
    }
    tally.print(rt)
}
