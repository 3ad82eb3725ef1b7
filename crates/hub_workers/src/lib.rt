//! Threads that run the revisions of a hub. Generic in how a revision runs between two events.
#![tactic(auto)]

mod bell;
mod clearing;
mod coming;
mod entering;
mod gate;
mod giving;
mod legs;
mod next;
mod running;
mod scout;
mod stepping;
mod threads;
mod vectors;
mod worker;

pub use bell::Bell;
pub use gate::{Gate, OpenGate};
pub use legs::{LegEvent, Legs, SettledLeg};
pub use running::{Finished, NotBegun, run};
pub use threads::{Worker, run_workers};
pub use vectors::take_last;
pub use worker::work;
