//! The checker of the affine rule on handles.
//!
//! `checker` goes over the statements with the locals in scope, and from where a handle comes into
//! scope `trail` follows it to the end of its block; `copies` looks for its name in expressions.
#![tactic(auto)]

mod checker;
mod copies;
mod examples;
mod fault;
mod laws;
mod trail;

pub use checker::affine;
pub use examples::{affine_programs, other_programs};
pub use fault::AffineFault;
pub use laws::{affine_laws, place_laws, second_use_law};
