//! A verifier of code: where memory suffices, it accepts exactly the code that keeps the rules, and
//! refuses other code at its first fault.
#![tactic(auto)]

mod fault;
mod instr;
mod mark;
mod node;
mod operands;
mod pass;
mod proved;
mod shapes;
mod spent;
mod stack;
mod taking;
mod verified;
mod verifier;

pub use fault::CodeFault;
pub use verified::Verified;
pub use verifier::verify;
