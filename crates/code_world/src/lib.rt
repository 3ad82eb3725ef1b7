//! A world of revisions that run code, on one thread, in any schedule.
#![tactic(auto)]

mod adopting;
mod advance;
mod answer;
mod births;
mod counting;
mod ending;
mod freshness;
mod left;
mod lists;
mod noted;
mod reading;
mod said;
mod slot;
mod starting;
mod table;
mod turn;
mod world;

pub use adopting::adopt;
pub use answer::LegAnswer;
pub use ending::MainEnd;
pub use freshness::{FreshStart, fresh};
pub use leg_run::CodeSetting;
pub use noted::NotedLeg;
pub use reading::leg_noting;
pub use slot::WorldSlot;
pub use table::{Birth, Table};
pub use world::{World, leg, leg_meeting};
