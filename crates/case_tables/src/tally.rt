//! How many cases were played, and which of them are wrong.

use crate::fault::CaseFault;
use std::io;

/// How many cases were played, and how many of them are wrong.
#[derive(Clone, Copy)]
pub struct Tally {
    cases: u64,
    wrong: u64,
}

impl Tally {
    /// No case yet.
    pub fn new() -> Tally {
        Tally { cases: 0, wrong: 0 }
    }

    /// Counts a case, and prints its row where it is not good. What is malformed, or for which no
    /// memory is left, counts as wrong too.
    pub fn count(
        &mut self,
        rt: &impl Print,
        row: &str,
        good: Result<bool, CaseFault>,
    ) -> io::Result<()> {
        self.cases = self.cases.saturating_add(1);
        if good == Ok(true) {
            return Ok(());
        }
        self.wrong = self.wrong.saturating_add(1);
        match good {
            Ok(_) => println!(rt; "wrong:\n{row}"),
            Err(CaseFault::Malformed) => println!(rt; "malformed:\n{row}"),
            Err(CaseFault::OutOfMemory) => println!(rt; "out of memory:\n{row}"),
        }
    }

    /// Prints the counts.
    pub fn print(&self, rt: &impl Print) -> io::Result<()> {
        println!(rt; "{} cases, {} wrong", self.cases, self.wrong)
    }
}
