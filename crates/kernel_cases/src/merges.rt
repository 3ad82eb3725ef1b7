//! The merges of a plan of kernels over versioned locations.

ghost use Rattle.std.specs.Prelude.{◌≡◌, is_some, map};
ghost use Rattle.merge_kernels.specs.Plans.{has_row};
ghost use Rattle.merge_kernels.specs.Terms.{definition};
ghost use Rattle.merge_kernels.specs.Words.{overlaid};
ghost use Rattle.kernel_cases.specs.Versioned.{versioned};

use merge_kernels::{KernelPlan, by_kernel, by_row};
use rev_num::NumFault;
use version_map::{MergeBy, Written};

/// So many locations, of which those with a choice are merged by its kernel, and each other one
/// takes the joinee's word.
#[derive(Drop)]
pub struct PlanMerges<'k> {
    pub plan: &'k KernelPlan<'k>,
    pub count: u32,
}

impl<'k> MergeBy for PlanMerges<'k> {
    ghost size = { λ s. s.count };

    ghost merges = { λ s. overlaid s.plan.now.choices.items
        (map (λ k. definition k.def) s.plan.now.kernels.now) versioned };

    ghost row = { λ s. has_row s.plan.now.choices.items
        (map (λ k. is_some k.row) s.plan.now.kernels.now) };

    fn merge(&mut self, location: u32, main: u64, join: u64, root: u64) -> Result<u64, NumFault> {
        match self.plan.at(location) {
            Some(kernel) => by_kernel(kernel, main, join, root),
            None => Ok(join),
        }
    }

    fn row_at(&self, first: u32) -> bool {
        self.plan.row(first).is_some()
    }

    fn merge_eight(
        &mut self,
        first: u32,
        main: [u64; 8],
        join: [u64; 8],
        root: [u64; 8],
    ) -> Option<[u64; 8]> {
        match self.plan.row(first) {
            Some(row) => by_row(row, main, join, root),
            None => None,
        }
    }

    fn merge_run(
        &mut self,
        mains: &[u64],
        written: &[Written],
        at: usize,
        values: &mut [u64],
    ) -> usize {
        self.plan.merge_run(mains, written, at, values)
    }
}
