//! Traces, their text both ways, and where the trace begins in a source that holds a text and a
//! trace.
#![tactic(auto)]

mod copies;
mod cut;
mod diagram;
mod draft;
mod fault;
mod laws;
mod lines;
mod places;
mod printer;
mod reader;
mod source;
mod spelled;

pub use diagram::{Change, Part, PartEnd, Trace, TraceEvent};
pub use fault::TraceFault;
pub use laws::{fault_laws, text_laws};
pub use printer::print_trace;
pub use reader::read_trace;
pub use source::{source_law, trace_start};
