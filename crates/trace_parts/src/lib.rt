//! What the parts of a trace are made of: the places of locations, ends and writes by these, and the
//! order of parts.
#![tactic(auto)]

mod order;
mod parts;
mod places;

pub use order::put_in_order;
pub use parts::{cause_place, changes_of, end_of, place_at};
pub use places::{place_of, places_of};
