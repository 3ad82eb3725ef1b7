//! Accepted code is certified place by place and never fails when it runs, funs and merges have
//! values, and a leg ends.
//!
//! Each law is an empty function. Those that speak of states take what a handle is as the type `H`:
//! a revision's number, or its path.
#![tactic(auto)]

mod certificate;
mod prices;
mod soundness;

pub use certificate::certificate_law;
pub use prices::price_laws;
pub use soundness::{fun_laws, soundness_laws, whole_code_law};
