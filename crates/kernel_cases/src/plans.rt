//! The choices and the words of a row.

ghost use Rattle.std.specs.Prelude.{◌≡◌, ◌≤◌, ◌<◌, ◌^◌, IfOk, length, map, true};
ghost use Rattle.version_map.specs.Ascending.{IsAscending};
ghost use Rattle.merge_kernels.specs.Plans.{AreWithin};
ghost use Rattle.merge_kernels.specs.Terms.{definition};
ghost use Rattle.kernel_cases.specs.Written.{AreNumbered};

use case_tables::CaseFault;
use merge_kernels::Kernel;
use std::alloc::{AllocError, Global};
use version_map::Written;

/// The choices of so many locations, by triples of numbers: from a location on, to below another
/// one, a place of the kernels. The first triple with a location counts.
pub fn choices_of(
    alloc: Global,
    count: u32,
    plans: &[u64],
) -> Result<Vec<Option<u32>>, AllocError> {
    let mut choices = Vec::new(alloc);
    for location in 0..count {
        choices.push(choice_at(plans, location as u64))?;
    }
    Ok(choices)
}

/// The place that was chosen for a location.
fn choice_at(plans: &[u64], location: u64) -> Option<u32> {
    for triple in plans.chunks_exact(3) {
        if let [from, to, place] = *triple {
            if from <= location && location < to {
                return u32::try_from(place).ok();
            }
        }
    }
    None
}

/// Whether each choice is a place of the kernels.
pub fn are_within(choices: &[Option<u32>], kernels: &[Kernel]) -> bool
    ensures { result ≡ true → AreWithin choices.now (map (λ k. definition k.def) kernels.now) }
{
    for at in 0..choices.len() {
        if let Some(n) = choices[at] {
            if n as usize >= kernels.len() {
                return false;
            }
        }
    }
    true
}

/// So many written locations from 0 on, with the value 1 and the root 0.
pub fn written_of(alloc: Global, count: u32) -> Result<Vec<Written>, AllocError>
    ensures { IfOk result (λ v. AreNumbered v.items × (length v.items ≡ count)) }
{
    let mut list = Vec::new(alloc);
    for location in 0..count {
        list.push(Written {
            location,
            value: 1,
            root: 0,
        })?;
    }
    Ok(list)
}

/// So many words, which are the greatest number at these places and 0 at all others.
pub fn mains_of(alloc: Global, count: u32, greatest: &[u64]) -> Result<Vec<u64>, AllocError>
    ensures { IfOk result (λ v. length v.items ≡ count) }
{
    let mut list = Vec::new(alloc);
    for location in 0..count {
        list.push(if greatest.contains(&(location as u64)) {
            i64::MAX as u64
        } else {
            0
        })?;
    }
    Ok(list)
}
