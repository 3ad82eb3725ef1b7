//! Merges that are stored as closures, each beside the definition whose value it answers.
#![tactic(auto)]

mod closing;
mod equal;
mod finding;
mod kernel;
mod lanes;
mod laws;
mod parameters;
mod plan;
mod runs;
mod term;
mod terms;
mod three;
mod words;

pub use closing::closed;
pub use equal::same;
pub use finding::find;
pub use kernel::{Kernel, NumberRun, RowKernel, RowRun};
pub use lanes::sum_lanes;
pub use laws::kernel_laws;
pub use plan::KernelPlan;
pub use term::{MergeDef, Term, TermLink};
pub use three::{greatest, greatest_def, least, least_def, sum, sum_def};
pub use words::{by_kernel, by_row};
