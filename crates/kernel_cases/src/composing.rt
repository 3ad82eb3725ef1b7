//! Compositions by kernels.

ghost use Rattle.std.specs.Prelude.{◌≡◌, IfOk, length};
ghost use Rattle.kernel_cases.specs.Written.{AreNumbered};

use crate::merges::PlanMerges;
use crate::plans::{are_within, choices_of, mains_of, written_of};
use case_tables::{CaseFault, behind, number_of, numbers_of};
use merge_kernels::{Kernel, KernelPlan};
use rev_num::{Items, NumFault};
use std::alloc::{AllocError, Global};
use version_map::{EndValue, Finish, MergeTrap, compose};

/// What a joinee leaves that wrote 1 at so many locations, from 0 on, over 0.
fn end_of(alloc: Global, count: u32) -> Result<EndValue, AllocError>
    ensures { IfOk result (λ e. AreNumbered e.written × (length e.written ≡ count)) }
{
    let written = written_of(alloc, count)?;
    Ok(EndValue {
        written: Items::from_vec(written),
        text: Items::from_vec(Vec::new(alloc)),
        fuel: 0,
        finish: Finish::Done,
    })
}

/// What a joiner takes over where these choices merge, whose words are 0 and at some places the
/// greatest number; or its trap.
fn taken_over(
    alloc: Global,
    kernels: &[Kernel],
    plans: &[u64],
    count: u32,
    greatest: &[u64],
) -> Result<Result<Vec<u64>, MergeTrap>, CaseFault> {
    let choices = choices_of(alloc, count, plans)?;
    if !are_within(choices.as_slice(), kernels) {
        return Err(CaseFault::Malformed);
    }
    let plan = KernelPlan::new(choices, kernels);
    let mut merges = PlanMerges { plan: &plan, count };
    let end = end_of(alloc, count)?;
    let mains = mains_of(alloc, count, greatest)?;
    let mut values = mains_of(alloc, count, &[])?;
    match compose(mains.as_slice(), &end, &mut merges, values.as_mut_slice()) {
        Ok(()) => Ok(Ok(values)),
        Err(trap) => Ok(Err(trap)),
    }
}

/// Whether a composition comes to this: `trap` with the location of an overflow, or the words.
pub fn composes(
    alloc: Global,
    kernels: &[Kernel],
    plans: &[u64],
    count: u64,
    greatest: &[u64],
    want: &str,
) -> Result<bool, CaseFault> {
    let count = u32::try_from(count).map_err(|_| CaseFault::Malformed)?;
    let answer = taken_over(alloc, kernels, plans, count, greatest)?;
    match answer {
        Ok(values) => {
            if behind(want, "trap").is_some() {
                return Ok(false);
            }
            let wanted = numbers_of(alloc, want)?;
            Ok(values.as_slice() == wanted.as_slice())
        },
        Err(trap) => match behind(want, "trap") {
            Some(location) => Ok(
                number_of(location)? == trap.location as u64 && trap.fault == NumFault::Overflow,
            ),
            None => Ok(false),
        },
    }
}

/// Whether a composition of so many locations gives ones where no word is the greatest number, and
/// traps at each location whose word is, also where each later one is too.
pub fn traps_in_each(
    alloc: Global,
    kernels: &[Kernel],
    plans: &[u64],
    count: u64,
) -> Result<bool, CaseFault> {
    let mut greatest: Vec<u64> = Vec::new(alloc);
    for left in 0..count {
        let at = count - 1 - left;
        let want = format!(in alloc; "trap {at}")?;
        if !composes(alloc, kernels, plans, count, &[at], want.as_str())? {
            return Ok(false);
        }
        greatest.push(at)?;
        if !composes(
            alloc,
            kernels,
            plans,
            count,
            greatest.as_slice(),
            want.as_str(),
        )? {
            return Ok(false);
        }
    }
    let mut ones = String::new(alloc);
    for _ in 0..count {
        ones.push_str("1 ")?;
    }
    composes(alloc, kernels, plans, count, &[], ones.as_str())
}
