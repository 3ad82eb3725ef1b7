//! The trace of a world of running code, and that for a program's code it is the trace of the
//! program.
//!
//! Each law is a function that does nothing.

ghost use Rattle.code_traces.specs.Parts.{EachHasPlace, ShownByPlaces};
ghost use Rattle.code_traces.specs.Traces.{EachHasTrace, EndsInMain, OneTrace, TracesAgree};

/// The places of the locations, in their order: each location of verified code has one, and it is
/// the name under which an outcome shows its value.
pub fn place_laws()
    ensures each { EachHasPlace }
    ensures shown { ShownByPlaces }
{}

/// Complete schedules of every verified code, with every input, share and fuel.
///
/// - `each`: the world after one has one trace, if no revision was joined twice;
/// - `main`: in each trace `main` is last;
/// - `same`: after any two, both worlds are that of a second join, or have one trace.
pub fn world_laws()
    ensures each { EachHasTrace }
    ensures main { EndsInMain }
    ensures same { OneTrace }
{}

/// For every program that the checker accepts, with every input, share and fuel: the world after
/// each complete schedule of its code and the end of every complete run of the calculus are both
/// that of a second join, or have one trace.
pub fn trace_law()
    ensures { TracesAgree }
{}
