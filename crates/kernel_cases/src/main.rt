//! Kernels, found by texts and composed by rows, by a table on the standard input. `README.md`
//! tells the form of the table.
#![tactic(auto)]

ghost use Rattle.std.specs.Prelude.{◌≡◌};
ghost use Rattle.merge_kernels.specs.Lanes.{lanes_answer};
ghost use Rattle.merge_kernels.specs.Terms.{answer_of};
ghost use Rattle.merge_kernels.specs.Three.{greatest_expression, least_expression, sum_expression};

mod composing;
mod finding;
mod merges;
mod plans;
mod rows;

use case_tables::{Pieces, Tally, play_table};
use merge_kernels::{
    Kernel, NumberRun, RowKernel, RowRun, greatest, greatest_def, least, least_def, sum, sum_def,
    sum_lanes,
};
use rev_num::NumFault;
use rows::{MARKS, play};
use std::io;

fn main(rt: HostRuntime) -> io::Result<()> {
    let alloc = rt.alloc();
    let by_sum: NumberRun = Box::new(
        alloc,
        |m: i64, j: i64, r: i64| -> Result<i64, NumFault>
            ensures { result ≡ answer_of sum_expression m j r }
        { sum(m, j, r) },
    )?;
    let by_lanes: RowRun = Box::new(
        alloc,
        |m: [i64; 8], j: [i64; 8], r: [i64; 8]| -> Option<[i64; 8]>
            ensures { result ≡ lanes_answer (answer_of sum_expression) m j r }
        { sum_lanes(m, j, r) },
    )?;
    let by_greatest: NumberRun = Box::new(
        alloc,
        |m: i64, j: i64, r: i64| -> Result<i64, NumFault>
            ensures { result ≡ answer_of greatest_expression m j r }
        { greatest(m, j, r) },
    )?;
    let by_least: NumberRun = Box::new(
        alloc,
        |m: i64, j: i64, r: i64| -> Result<i64, NumFault>
            ensures { result ≡ answer_of least_expression m j r }
        { least(m, j, r) },
    )?;
    let again: NumberRun = Box::new(
        alloc,
        |m: i64, j: i64, r: i64| -> Result<i64, NumFault>
            ensures { result ≡ answer_of sum_expression m j r }
        { sum(m, j, r) },
    )?;
    let row = RowKernel::new(sum_def(alloc)?, by_lanes);
    let mut kernels = Vec::new(alloc);
    kernels.push(Kernel::new(sum_def(alloc)?, by_sum).with_row(row))?;
    kernels.push(Kernel::new(greatest_def(alloc)?, by_greatest))?;
    kernels.push(Kernel::new(least_def(alloc)?, by_least))?;
    kernels.push(Kernel::new(sum_def(alloc)?, again))?;
    let table = io::read_to_string(alloc, rt.stdin())?;
    let all = kernels.as_slice();
    let play = |_pieces: &mut Pieces, tally: &mut Tally, row: &str| play(&rt, all, tally, row);
    play_table(&rt, MARKS, table.as_str(), play)
}
