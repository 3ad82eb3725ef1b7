//! The rules on names and kinds of expressions, and which fault of the static rules counts.
#![tactic(auto)]

mod expressions;
mod fault;
mod kinds;
mod laws;
mod names;

pub use expressions::{CheckedExpression, right_side_place};
pub use fault::first;
pub use kinds::{alike, array_use, name_kind, not_rev, scalar_use, wants};
pub use laws::typing_laws;
pub use names::{Callee, Checker, Locals};
