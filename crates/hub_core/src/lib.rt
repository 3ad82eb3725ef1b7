//! What lies in a hub's slot while nobody has the turn, why it stays the replay of its schedule,
//! and the rule of the hub's turn and tally.
#![tactic(auto)]

mod chains;
mod closing;
mod deed;
mod desk;
mod journal;
mod journaling;
mod kept;
mod laws;
mod ordering;
mod parting;
mod placing;
mod planning;
mod queueing;
mod recording;
mod records;
mod revision;
mod run_queue;
mod sight;
mod state;
mod status;
mod tally_steps;
mod vectors;
mod view;

pub use closing::{Round, lay_out, take_entries};
pub use deed::{Deed, Plan};
pub use desk::{Desk, DeskSlot};
pub use journal::{Entry, Journal, Looped};
pub use kept::Kept;
pub use laws::{HubWorld, hub_laws, replay_laws};
pub use ordering::Ordered;
pub use queueing::marked;
pub use records::Records;
pub use revision::Revision;
pub use run_queue::{Chain, RunQueue};
pub use sight::Sight;
pub use state::HubState;
pub use status::Status;
pub use tally_steps::{
    CarryOut, Fork, GiveTurn, HaltNoMemory, HaltTwice, MakeRound, OneMore, PassTurn, Seated,
    TakeTurn, TallyRule, Tell, Widen,
};
pub use vectors::{append, empty};
pub use view::{Said, View};
