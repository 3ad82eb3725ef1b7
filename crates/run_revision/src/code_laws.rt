//! The laws of a hub of verified code.

ghost use Rattle.run_revision.specs.Laws.{LegComesToJoin, MeetingsFit, OverIsOfCode, ReplaysAreOfCode};

/// The hub's schedules are those of the code: they lead to the same worlds, and one that is
/// complete for the hub is so for the code.
pub fn world_laws()
    ensures replays { ReplaysAreOfCode }
    ensures over { OverIsOfCode }
{}

/// A joiner behind the instructions of a leg stands at the join to which that leg comes. In a run
/// of verified code from its `main`, a joiner and the end that it takes in are of that run, and
/// their fuel together is at most that of the start.
pub fn joiner_laws()
    ensures comes { LegComesToJoin }
    ensures fit { MeetingsFit }
{}
