//! The data of a revision: its locations, values, what its view shows, and what it printed.
#![tactic(auto)]

mod location;
mod shown;
mod text;
mod values;

pub use location::{Location, copy_locations, snapshot, value_at, write_at};
pub use shown::shown_values;
pub use text::Text;
pub use values::{is_true, number_of, place};
