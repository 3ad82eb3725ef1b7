//! Whole calls, by a table on the standard input: the words and the source, and then both outputs
//! and the status. `README.md` tells the form of the table.
#![tactic(auto)]

ghost use Rattle.std.specs.Prelude.{◌≡◌};
ghost use Rattle.merge_kernels.specs.Lanes.{lanes_answer};
ghost use Rattle.merge_kernels.specs.Terms.{answer_of};
ghost use Rattle.merge_kernels.specs.Three.{greatest_expression, least_expression, sum_expression};

mod call;
mod faults;
mod kernels;
mod meeting;
mod merges;
mod rows;
mod wanted;

use case_tables::{Pieces, Tally, play_table};
use kernels::Kernels;
use merge_kernels::{
    Kernel, NumberRun, RowKernel, RowRun, greatest, greatest_def, least, least_def, sum, sum_def,
    sum_lanes,
};
use rev_num::NumFault;
use rows::{MARKS, play};
use std::io;
use std::sync::Arc;
use std::sync::atomic::{AtomicU64, Ordering};

fn main(rt: HostRuntime) -> io::Result<()> {
    let alloc = rt.alloc();
    let sums = Arc::new(alloc, AtomicU64::new(0))?;
    let rows = Arc::new(alloc, AtomicU64::new(0))?;
    let (first, second, lanes) = (sums.clone()?, sums.clone()?, rows.clone()?);
    let by_sum: NumberRun = Box::new(
        alloc,
        move |m: i64, j: i64, r: i64| -> Result<i64, NumFault>
            ensures { result ≡ answer_of sum_expression m j r }
        {
            first.fetch_add(1, Ordering::SeqCst);
            sum(m, j, r)
        },
    )?;
    let by_lanes: RowRun = Box::new(
        alloc,
        move |m: [i64; 8], j: [i64; 8], r: [i64; 8]| -> Option<[i64; 8]>
            ensures { result ≡ lanes_answer (answer_of sum_expression) m j r }
        {
            lanes.fetch_add(1, Ordering::SeqCst);
            sum_lanes(m, j, r)
        },
    )?;
    let by_greatest: NumberRun = Box::new(
        alloc,
        |m: i64, j: i64, r: i64| -> Result<i64, NumFault>
            ensures { result ≡ answer_of greatest_expression m j r }
        { greatest(m, j, r) },
    )?;
    let by_least: NumberRun = Box::new(
        alloc,
        |m: i64, j: i64, r: i64| -> Result<i64, NumFault>
            ensures { result ≡ answer_of least_expression m j r }
        { least(m, j, r) },
    )?;
    let without_row: NumberRun = Box::new(
        alloc,
        move |m: i64, j: i64, r: i64| -> Result<i64, NumFault>
            ensures { result ≡ answer_of sum_expression m j r }
        {
            second.fetch_add(1, Ordering::SeqCst);
            sum(m, j, r)
        },
    )?;
    let row = RowKernel::new(sum_def(alloc)?, by_lanes);
    let all = [
        Kernel::new(sum_def(alloc)?, by_sum).with_row(row),
        Kernel::new(greatest_def(alloc)?, by_greatest),
        Kernel::new(least_def(alloc)?, by_least),
        Kernel::new(sum_def(alloc)?, without_row),
    ];
    let kernels = Kernels {
        all: all.as_slice(),
        sums: &*sums,
        rows: &*rows,
    };
    let table = io::read_to_string(alloc, rt.stdin())?;
    let play = |pieces: &mut Pieces, tally: &mut Tally, row: &str| {
        play(&rt, &kernels, pieces, tally, row)
    };
    play_table(&rt, MARKS, table.as_str(), play)
}
