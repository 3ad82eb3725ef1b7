//! The trace of verified code, made by one run of it on one thread; and what the trace of a world of
//! running code is.
#![tactic(auto)]

mod laws;
mod listing;
mod of_world;
mod parts;
mod rows;
mod running;
mod tables;

ghost use Rattle.code_traces.specs.Traced.{TracesAreOfPrograms};

pub use laws::{place_laws, trace_law, world_laws};
pub use listing::trace_of;
pub use of_world::trace_of_world;
pub use rows::worked_traces;
pub use running::{TracedRun, trace_code};

/// The trace of the code of every program that the checker accepts is that of the program, with
/// every input, share and fuel.
pub fn program_trace_law()
    ensures { TracesAreOfPrograms }
{}
