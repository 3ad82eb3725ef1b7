//! The kernels of the calls, and how often those that add up were called.

use case_tables::{CaseFault, field, numbers_of};
use merge_kernels::Kernel;
use std::alloc::Global;
use std::sync::atomic::{AtomicU64, Ordering};

/// How many of the kernels a call has where its row does not say which.
const USUAL: usize = 3;

/// The kernels that rows choose from, and how often those that add up were called.
#[derive(Drop)]
pub struct Kernels<'k> {
    pub all: &'k [Kernel],
    /// For three numbers.
    pub sums: &'k AtomicU64,
    /// For eight lanes.
    pub rows: &'k AtomicU64,
}

impl<'k> Kernels<'k> {
    /// The kernels of a row: those from one place on, to below another one, where it names these,
    /// and else the first three.
    pub fn of_row(&self, alloc: Global, row: &str) -> Result<&[Kernel], CaseFault> {
        let Some(text) = field(row, "kernels") else {
            return self.all.get(..USUAL).ok_or(CaseFault::Malformed);
        };
        let numbers = numbers_of(alloc, text)?;
        let [from, to] = numbers.as_slice() else {
            return Err(CaseFault::Malformed);
        };
        let from = usize::try_from(*from).unwrap_or(usize::MAX);
        let to = usize::try_from(*to).unwrap_or(usize::MAX);
        self.all.get(from..to).ok_or(CaseFault::Malformed)
    }

    /// Forgets how often they were called.
    pub fn forget(&self) {
        self.sums.store(0, Ordering::SeqCst);
        self.rows.store(0, Ordering::SeqCst);
    }
}
