//! The reports of the modes that go by no threads: from a text, a code file, or a text with a trace
//! behind it, to what is written. The program that a text is, or its first fault, is found here for
//! all modes.
#![tactic(auto)]

mod audits;
mod checks;
mod code;
mod emits;
mod execs;
mod repeats;
mod replays;
pub mod sizes;
mod stop;
mod text;
mod traces;

pub use audits::audit;
pub use checks::{check, dis};
pub use emits::emit;
pub use execs::exec;
pub use repeats::repeat;
pub use replays::replay;
pub use stop::Stop;
pub use text::{checked, fault_at};
pub use traces::trace;
