//! Verified code as a machine of a hub, and its revisions as those of a hub.
#![tactic(auto)]

mod code_laws;
mod forking;
mod hand;
mod joiner;
mod laws;
mod left;
mod legs;
mod machine;
mod runner;
mod state;

pub use code_laws::{joiner_laws, world_laws};
pub use forking::{CodeFork, CodeParent};
pub use hand::{CodeHand, Keeper};
pub use joiner::{CodeJoiner, Ended, JoinedBy};
pub use laws::run_law;
pub use left::CodeEnd;
pub use machine::CodeRevisions;
pub use runner::CodeRunner;
pub use state::AnyState;
