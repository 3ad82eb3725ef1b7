//! The outcome of code, run on one thread, also from a schedule on; revisions by number and by
//! path.
#![tactic(auto)]

mod after;
mod inputs;
mod laws;
mod of_revision;
mod of_world;
mod outcomes;
mod paths;
mod running;
mod values;

pub use after::outcome_after;
pub use inputs::note_inputs;
pub use laws::schedule_laws;
pub use of_revision::{revision_number, revision_path};
pub use of_world::outcome_of_world;
pub use outcomes::outcome_of;
pub use paths::{number_of, path_of};
pub use running::{replay_code, run_code};
pub use values::value_of;
