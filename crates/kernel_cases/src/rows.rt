//! The rows of the table.

use crate::composing::{composes, traps_in_each};
use crate::finding::is_found;
use case_tables::{CaseFault, Tally, field, has, number_of, numbers_of};
use merge_kernels::Kernel;
use std::alloc::Global;
use std::io;

/// The marks that a line may have.
pub const MARKS: &[&str] = &[
    "#", "find", "compose", "each", "k", "plan", "main", "|", ">",
];

/// The first so many kernels, as the row says; all, where it says nothing.
fn kernels_of<'a>(all: &'a [Kernel], row: &str) -> Result<&'a [Kernel], CaseFault> {
    let Some(text) = field(row, "k") else {
        return Ok(all);
    };
    let count = number_of(text)?;
    if count <= all.len() as u64 {
        Ok(&all[..count as usize])
    } else {
        Err(CaseFault::Malformed)
    }
}

/// Whether a row is good.
fn is_good(alloc: Global, all: &[Kernel], row: &str) -> Result<bool, CaseFault> {
    let kernels = kernels_of(all, row)?;
    if let Some(place) = field(row, "find") {
        return is_found(alloc, kernels, field(row, "|").unwrap_or(""), place);
    }
    let plans = numbers_of(alloc, field(row, "plan").unwrap_or(""))?;
    if let Some(text) = field(row, "each") {
        return traps_in_each(alloc, kernels, plans.as_slice(), number_of(text)?);
    }
    let greatest = numbers_of(alloc, field(row, "main").unwrap_or(""))?;
    let count = number_of(field(row, "compose").unwrap_or(""))?;
    composes(
        alloc,
        kernels,
        plans.as_slice(),
        count,
        greatest.as_slice(),
        field(row, ">").unwrap_or(""),
    )
}

/// Plays a row.
pub fn play(
    rt: &(impl AllocGlobal + Print),
    all: &[Kernel],
    tally: &mut Tally,
    row: &str,
) -> io::Result<()> {
    if has(row, "find") || has(row, "compose") || has(row, "each") {
        tally.count(rt, row, is_good(rt.alloc(), all, row))
    } else {
        Ok(())
    }
}
