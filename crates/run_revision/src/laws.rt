//! The law of runs of verified code at a hub.

ghost use Rattle.run_revision.specs.CodeRuns.{RunsAreOfCode};

/// What a hub leaves of a run from `main` of verified code is a run of the code: the schedule is
/// legal there too, and complete where no halt was entered; in Twice it leads to the join of what
/// was joined.
pub fn run_law()
    ensures { RunsAreOfCode }
{}
