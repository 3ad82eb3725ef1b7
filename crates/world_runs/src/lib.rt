//! Schedules of a world of revisions that run code, and the numbers that are ready in one; and runs
//! with notes of what each revision did.
#![tactic(auto)]

mod after_leg;
mod ending;
mod heap;
mod least;
mod legs;
mod made;
mod noted;
mod noted_runs;
mod noter;
mod notes;
mod plain;
mod queue;
mod replaying;

pub use ending::finish_by;
pub use heap::LeastHeap;
pub use legs::Legs;
pub use noted::Noted;
pub use noted_runs::{finish_noting, first_notes, replay_noting};
pub use plain::{finish, replay};
pub use queue::{ReadyQueue, Waiters};
pub use replaying::{ReplayFault, replay_by};
