//! What a well-typed program is: its funs and merges with the values of expressions, the rules on
//! names, kinds and limits, and where its shared variables lie.
#![tactic(auto)]

mod expanded;
mod fault;
mod fun_fault;
mod names;
mod shared_info;
mod typed;

pub use expanded::{Expanded, FunDef, FunHead, MergeRef};
pub use fault::TypeFault;
pub use fun_fault::MergeFault;
pub use names::Holder;
pub use shared_info::SharedInfo;
pub use typed::Typed;
