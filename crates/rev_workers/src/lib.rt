//! Verified code, run by threads over shared segments.
#![tactic(auto)]

mod code_run;
mod hands;
mod keeper;
mod merges;
mod threads;

pub use code_run::{NotRun, run_code};
pub use hands::{StoreHand, StoreRevisions};
pub use keeper::StoreKeeper;
pub use merges::KernelMerges;
pub use threads::{NotRan, StoreRan, run_threads};
