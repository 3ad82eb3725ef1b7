//! The call with three kernels.

ghost use Rattle.std.specs.Prelude.{◌≡◌};
ghost use Rattle.merge_kernels.specs.Lanes.{lanes_answer};
ghost use Rattle.merge_kernels.specs.Terms.{answer_of};
ghost use Rattle.merge_kernels.specs.Three.{greatest_expression, least_expression, sum_expression};

use hub_workers::OpenGate;
use merge_kernels::{
    Kernel, NumberRun, RowKernel, RowRun, greatest, greatest_def, least, least_def, sum, sum_def,
    sum_lanes,
};
use rev_io::{Sink, Source};
use rev_num::NumFault;
use rev_top::rev_main;
use std::alloc::AllocError;
use std::sync::Wait;
use std::thread::Threads;

/// One call of the program, by kernels for the merges `m + j - r`, which has a row,
/// `pick(j > m, j, m)` and `pick(j < m, j, m)`. The error is want of memory for these; then nothing
/// was read or written.
pub fn call<R: AllocGlobal + Threads + Wait + Sync, S: Source, O: Sink, E: Sink>(
    rt: &R,
    words: &[String],
    source: &mut S,
    out: &mut O,
    err: &mut E,
) -> Result<u8, AllocError> {
    let alloc = rt.alloc();
    let by_sum: NumberRun = Box::new(
        alloc,
        |m: i64, j: i64, r: i64| -> Result<i64, NumFault>
            ensures { result ≡ answer_of sum_expression m j r }
        { sum(m, j, r) },
    )?;
    let by_lanes: RowRun = Box::new(
        alloc,
        |m: [i64; 8], j: [i64; 8], r: [i64; 8]| -> Option<[i64; 8]>
            ensures { result ≡ lanes_answer (answer_of sum_expression) m j r }
        { sum_lanes(m, j, r) },
    )?;
    let by_greatest: NumberRun = Box::new(
        alloc,
        |m: i64, j: i64, r: i64| -> Result<i64, NumFault>
            ensures { result ≡ answer_of greatest_expression m j r }
        { greatest(m, j, r) },
    )?;
    let by_least: NumberRun = Box::new(
        alloc,
        |m: i64, j: i64, r: i64| -> Result<i64, NumFault>
            ensures { result ≡ answer_of least_expression m j r }
        { least(m, j, r) },
    )?;
    let row = RowKernel::new(sum_def(alloc)?, by_lanes);
    let kernels = [
        Kernel::new(sum_def(alloc)?, by_sum).with_row(row),
        Kernel::new(greatest_def(alloc)?, by_greatest),
        Kernel::new(least_def(alloc)?, by_least),
    ];
    let mut ran = None;
    Ok(rev_main(
        rt,
        words,
        source,
        out,
        err,
        &OpenGate,
        &mut ran,
        kernels.as_slice(),
    ))
}
