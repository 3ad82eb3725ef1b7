//! The law of the births of a run.

ghost use Rattle.thread_runs.specs.Laws.{BirthsNameTheirs};

/// By the forkers of the world of a schedule, births name the paths of that world: the child of a
/// revision's k-th fork, counted from 0, is the k-th revision that has it for its forker. Each
/// forker stands before what it forked.
pub fn birth_law()
    ensures { BirthsNameTheirs }
{}
