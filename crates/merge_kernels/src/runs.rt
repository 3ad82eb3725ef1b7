//! Runs of written locations that a plan merges by one kernel: by its row, or one by one.

ghost use Rattle.std.specs.Prelude.{◌≡◌, ◌<◌, ◌≤◌, ◌+◌, ◌*◌, ℕ, drop, length, map};
ghost use Rattle.version_map.specs.Ascending.{IsAscending};
ghost use Rattle.version_map.specs.Composing.{Merges};
ghost use Rattle.version_map.specs.Following.{Follow};
ghost use Rattle.version_map.specs.Parts.{HasPut};
ghost use Rattle.merge_kernels.specs.Rows.{AreValues};
ghost use Rattle.merge_kernels.specs.Terms.{definition};
ghost use Rattle.merge_kernels.specs.Words.{overlaid};

use crate::kernel::Kernel;
use crate::plan::KernelPlan;
use version_map::{Written, follow};

impl<'k> KernelPlan<'k> {
    /// Puts the merges of written locations from this place on, behind one another, and tells of how
    /// many locations that is: as many as follow each other, have one kernel, and stand before the
    /// first with a fault, as far as the plan knows. By a kernel with a row these are whole eights
    /// before the first with a fault. Others may be there too, so 0 says nothing.
    pub fn merge_run(
        &self,
        mains: &[u64],
        written: &[Written],
        at: usize,
        values: &mut [u64],
    ) -> usize
        requires mains { length mains.now ≡ length written.now }
        requires values { length values.old ≡ length written.now }
        requires ascending { IsAscending written.now }
        requires here { at < length written.now }
        ensures length { length values.new ≡ length values.old }
        ensures inside { at + result ≤ length written.now }
        ensures put { (inner : Merges ℕ) → HasPut (overlaid self.now.choices.items
            (map (λ k. definition k.def) self.now.kernels.now) inner) mains.now written.now at result
            values.old values.new }
    {
        let first = written[at].location;
        let Some(kernel) = self.at(first) else {
            return 0;
        };
        let many = following(written, at, first, self.level_from(first));
        put_run(kernel, mains, written, at, many as usize, values)
    }
}

/// Of at most so many, of 64 and of eight written locations, the greatest number that follow each
/// other from this place and this location on, or 0.
fn following(written: &[Written], at: usize, first: u32, most: u32) -> u32
    requires here { at < length written.now }
    requires ascending { IsAscending written.now }
    ensures most { result ≤ most }
    ensures inside { at + result ≤ length written.now }
    ensures run { Follow (drop at written.now) first result }
{
    let most = (written.len() - at).min(most as usize) as u32;
    for many in [most, 64, 8] {
        if 0 < many && many <= most && follow(written, at, first, many) {
            return many;
        }
    }
    0
}

/// Puts the merges of up to so many written locations from this place on by the definition of a
/// kernel, and tells of how many: by its row, where it has one, or else one by one.
fn put_run(
    kernel: &Kernel,
    mains: &[u64],
    written: &[Written],
    at: usize,
    many: usize,
    values: &mut [u64],
) -> usize
    requires mains { length mains.now ≡ length written.now }
    requires values { length values.old ≡ length written.now }
    requires inside { at + many ≤ length written.now }
    ensures length { length values.new ≡ length values.old }
    ensures most { result ≤ many }
    ensures put { (merges : Merges ℕ) (first : ℕ) → Follow (drop at written.now) first many
        → AreValues (definition kernel.now.def) merges first many
        → HasPut merges mains.now written.now at result values.old values.new }
{
    match kernel.row() {
        Some(row) => 8 * row.put_eights(mains, written, at, many / 8, values),
        None => kernel.put_ones(mains, written, at, many, values),
    }
}
