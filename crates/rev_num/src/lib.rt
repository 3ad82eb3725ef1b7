//! Values of a program, checked numbers of 64 bits, the paths that name revisions, traps and
//! outcomes, and sums over lists.
#![tactic(auto)]

mod items;
mod kinds;
mod laws;
mod limits;
mod number;
mod outcome;
mod path;
mod sums;
mod text;
mod value;

pub use items::{Bytes, Items};
pub use kinds::same_kind;
pub use laws::{decimal_laws, division_laws, post_order_laws, word_laws};
pub use limits::MOST_FRAMES;
pub use number::{add, div, int_of_word, mul, neg, rem, sub, word_of_int};
pub use outcome::{Cause, Outcome, Shown, Trap};
pub use path::Path;
pub use sums::sum_laws;
pub use text::{append_decimal, append_path, fault_name, read_decimal};
pub use value::{NumFault, Value, ValueKind};
