//! Revisions that run code, from event to event.
#![tactic(auto)]

mod beginning;
mod end;
mod fork;
mod frame;
mod fresh;
mod instructions;
mod join;
mod laws;
mod leg;
mod memory;
mod noting;
mod opening;
mod runner;
mod settling;
mod spares;
mod starting;

pub use end::{Broken, Stopped, retire};
pub use fork::{AtFork, BrokenFork, Parent};
pub use join::{AtJoin, Claimed};
pub use laws::standing_laws;
pub use leg::{Event, run_leg};
pub use noting::run_leg_noting;
pub use opening::{start_main, start_whole, start_words};
pub use runner::Runner;
pub use settling::{Settled, settle};
pub use spares::Spares;
