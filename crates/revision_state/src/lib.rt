//! What a revision of a program has beside its data: its frames, locals and phase; and the tables
//! that its steps look into.
#![tactic(auto)]

mod bodies;
mod body_names;
mod frame;
mod frames;
mod locals;
mod lookup;
mod phase;
mod setting;
mod start;
mod tables;

pub use frame::Frame;
pub use frames::Frames;
pub use phase::{ForkOrJoin, Phase, copy_noted};
pub use setting::Setting;
pub use start::start_locations;
