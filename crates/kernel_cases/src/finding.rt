//! The kernel of a merge in a text.

use case_tables::{CaseFault, number_of, typed_of};
use merge_kernels::{Kernel, closed, find};
use std::alloc::Global;

/// Whether the first merge of a program has its kernel at this place: `open` says that it has no
/// definition, and `none` that no kernel has it.
pub fn is_found(
    alloc: Global,
    kernels: &[Kernel],
    text: &str,
    place: &str,
) -> Result<bool, CaseFault> {
    let Some(typed) = typed_of(alloc, text.as_bytes()) else {
        return Err(CaseFault::Malformed);
    };
    if typed.expanded.merges.as_slice().is_empty() {
        return Err(CaseFault::Malformed);
    }
    let Some(def) = closed(alloc, &typed.expanded, 0)? else {
        return Ok(place == "open");
    };
    match find(kernels, &def) {
        Some(n) => Ok(place != "none" && place != "open" && number_of(place)? == n as u64),
        None => Ok(place == "none"),
    }
}
