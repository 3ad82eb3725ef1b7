//! Parts of the machine, each run once with memory enough. The program prints what each comes to.
#![tactic(auto)]

mod codes;
mod driver;
mod merges;
mod snapshots;
mod wants;

use std::alloc::AllocError;
use std::io;

/// Prints what a case came to.
fn tell(rt: &impl Print, case: &str, good: Result<bool, AllocError>) -> io::Result<()> {
    match good {
        Ok(true) => println!(rt; "{case}: as it should"),
        Ok(false) => println!(rt; "{case}: wrong"),
        Err(_) => println!(rt; "{case}: out of memory"),
    }
}

fn main(rt: HostRuntime) -> io::Result<()> {
    let alloc = rt.alloc();
    tell(
        &rt,
        "merges by merge blocks",
        merges::give_what_they_should(alloc),
    )?;
    tell(
        &rt,
        "a collapse of two parts",
        snapshots::is_asked_three_times(alloc),
    )?;
    tell(
        &rt,
        "a settle with two parts",
        snapshots::settle_asks_three_times(alloc),
    )?;
    match wants::two_runs(alloc) {
        Ok((first, second)) => {
            tell(&rt, "a run", first)?;
            tell(&rt, "a run behind it", Ok(second))
        },
        Err(error) => tell(&rt, "two runs", Err(error)),
    }
}
