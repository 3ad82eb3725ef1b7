//! The top call: from the words and the source to the bytes on both outputs and the status.
#![tactic(auto)]

ghost use Rattle.std.specs.Prelude.{map};
ghost use Rattle.std.specs.String.{string_bytes};
ghost use Rattle.rev_words.specs.Reading.{reading};
ghost use Rattle.merge_kernels.specs.Terms.{definition};
ghost use Rattle.rev_top.specs.Accepted.{Accepted};
ghost use Rattle.rev_top.specs.Kernels.{KernelsOf};
ghost use Rattle.rev_top.specs.Promises.{Keeps};
ghost use Rattle.rev_top.specs.RanLaws.{RanSays};

mod answer;
mod endings;
mod happening;
mod law;
mod made;
mod runs;
mod streams;

pub use endings::out_of_memory;
use happening::happen;
use hub_workers::Gate;
pub use law::{
    listing_law, load_law, one_answer, one_finding, ran_law, statuses, stream_law, trace_law,
    writing_law,
};
use merge_kernels::Kernel;
use rev_io::{Sink, Source};
use std::sync::Wait;
use std::thread::Threads;
use thread_runs::Ran;

/// One call of the program, with the words that follow its name. It writes the bytes of the report
/// on `out`, then those on `err`, and answers the status.
///
/// | Status | Meaning |
/// |---|---|
/// | 0 | done |
/// | 1 | `main` trapped |
/// | 2 | the source is too long or at fault, its trace is not the program's, or the schedule cannot step |
/// | 3 | a revision was joined twice |
/// | 4 | the words have no reading |
/// | 5 | the source failed |
/// | 6 | a sink failed |
/// | 7 | memory ran out |
///
/// Words come before the source, a read fault before the length, and the length before the text. Of
/// the faults of a text those of its tokens come first, then those of its syntax, of its funs, and
/// of the other static rules, each at its least place. Of a code file those of the file come before
/// those of its code. Those of a text come before those of a trace or a schedule.
/// A sink that fails, and want of memory, can come in place of each of them.
///
/// In the modes `run`, `load` and `order` the program is run by threads, each of which enters the
/// gate before each leg, and all of which have ended when it returns; a kernel with the definition
/// of a location's merge makes its merges there. Of each location the run that is handed out tells
/// the least place of such a kernel, for which the plan was made that the run was given. No clause
/// tells of threads, of the gate, or that a kernel is called.
/// What is written is made from their run, which is handed out in `ran`: behind each
/// of the statuses 0, 1 and 3; behind 6 and 7 surely where `out` tells its bytes and took one. In
/// the other modes, and behind 2, 4 and 5, `ran` is None.
pub fn rev_main<
    R: AllocGlobal + Threads + Wait + Sync,
    S: Source,
    O: Sink,
    E: Sink,
    G: Gate + Sync,
>(
    rt: &R,
    words: &[String],
    source: &mut S,
    out: &mut O,
    err: &mut E,
    gate: &G,
    ran: &mut Option<Ran>,
    kernels: &[Kernel],
) -> u8
    ensures keeps { Keeps (reading (map string_bytes words.now))
        (S.stream source.old) (S.stream source.new) (O.stream out.old) (O.stream out.new)
        (E.stream err.old) (E.stream err.new) ran.new result }
    ensures accepted { Accepted (reading (map string_bytes words.now))
        (S.stream source.old) (S.stream source.new) (O.stream out.old) (O.stream out.new)
        (E.stream err.old) (E.stream err.new) result }
    ensures ran { RanSays (reading (map string_bytes words.now))
        (S.stream source.old) (O.stream out.old) (O.stream out.new)
        (E.stream err.old) (E.stream err.new) ran.new result }
    ensures kernels { KernelsOf (reading (map string_bytes words.now))
        (S.stream source.old) (S.stream source.new)
        (map (λ k. definition k.def) kernels.now) ran.new }
{
    happen(rt, rt.alloc(), words, source, out, err, gate, ran, kernels)
}
