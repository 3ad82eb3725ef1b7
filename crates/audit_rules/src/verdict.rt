//! What an audit of a trace answers.

use rev_num::Path;
use trace_diagram::Part;

/// The trace is that of the run, or this is the first revision in post-order whose stated and
/// computed parts differ.
#[derive(Drop)]
pub enum Verdict {
    Yes,
    No {
        revision: Path,
        stated: Option<Part>,
        computed: Computed,
    },
}

/// What comes of a revision's own run.
#[derive(Drop)]
pub enum Computed {
    /// Nothing begins it: it is not `main`, and no own run of a revision with a stated part forks
    /// it.
    Absent,
    Part(Part),
    /// It joins a revision that it joined before, or that a stated part earlier in post-order
    /// joined.
    Twice,
    /// It joins a revision that has no stated part, or one that can't be taken.
    Missing,
}
