//! Tests of what threads share: threads at a hub, over a machine of trees of revisions; and shared
//! segments, a table of steps on one, and threads on one store.
#![tactic(auto)]

mod going;
mod legs;
mod machine;
mod node;
#[cfg(test)]
mod one_segment;
#[cfg(test)]
mod one_store;
#[cfg(test)]
mod tests;

pub use going::{Done, Forking, Going};
pub use legs::Room;
pub use machine::Tree;
pub use node::{Node, Stage, Way};
