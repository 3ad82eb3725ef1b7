//! The merges of all locations, by kernels where a plan has chosen them.

ghost use Rattle.std.specs.Prelude.{◌≡◌, is_some, map};
ghost use Rattle.merge_kernels.specs.Plans.{has_row};
ghost use Rattle.merge_kernels.specs.Terms.{definition};
ghost use Rattle.merge_kernels.specs.Words.{Agrees, AreAlike, overlaid};

use merge_kernels::{KernelPlan, by_kernel, by_row};
use rev_num::NumFault;
use version_map::{MergeBy, Written};

/// The merges of another, of which those at locations with a choice are made by kernels.
#[derive(Drop)]
pub struct KernelMerges<'k, M: MergeBy> {
    pub(crate) plan: &'k KernelPlan<'k>,
    pub(crate) inner: M,
}

impl<'k, M: MergeBy> KernelMerges<'k, M> {
    /// Where a definition was chosen, its value is the merge of `inner`, so the merges of three
    /// words of 64 bits are those of `inner`. It takes no memory.
    pub fn new(plan: &'k KernelPlan<'k>, inner: M) -> KernelMerges<'k, M>
        requires { Agrees plan.now.choices.items
            (map (λ k. definition k.def) plan.now.kernels.now) (M.merges inner) }
        ensures inner { result.inner ≡ inner }
        ensures plan { result.plan.now ≡ plan.entry.now }
        ensures size { M.size result.inner ≡ M.size inner }
        ensures alike { AreAlike (overlaid result.plan.now.choices.items
            (map (λ k. definition k.def) result.plan.now.kernels.now) (M.merges result.inner))
            (M.merges inner) }
    {
        KernelMerges { plan, inner }
    }
}

impl<'k, M: MergeBy> MergeBy for KernelMerges<'k, M> {
    ghost size = { λ s. M.size s.inner };

    ghost merges = { λ s. overlaid s.plan.now.choices.items
        (map (λ k. definition k.def) s.plan.now.kernels.now) (M.merges s.inner) };

    // Where eight locations have one choice, of a kernel with a row.
    ghost row = { λ s. has_row s.plan.now.choices.items
        (map (λ k. is_some k.row) s.plan.now.kernels.now) };

    fn merge(&mut self, location: u32, main: u64, join: u64, root: u64) -> Result<u64, NumFault> {
        match self.plan.at(location) {
            Some(kernel) => by_kernel(kernel, main, join, root),
            None => self.inner.merge(location, main, join, root),
        }
    }

    fn row_at(&self, first: u32) -> bool {
        self.plan.row(first).is_some()
    }

    fn merge_eight(
        &mut self,
        first: u32,
        main: [u64; 8],
        join: [u64; 8],
        root: [u64; 8],
    ) -> Option<[u64; 8]> {
        match self.plan.row(first) {
            Some(row) => by_row(row, main, join, root),
            None => None,
        }
    }

    fn merge_run(
        &mut self,
        mains: &[u64],
        written: &[Written],
        at: usize,
        values: &mut [u64],
    ) -> usize {
        self.plan.merge_run(mains, written, at, values)
    }
}
