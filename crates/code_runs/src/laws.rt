//! Laws of schedules: a function that does nothing, whose clauses are the laws.

ghost use Rattle.code_runs.specs.Schedules.{EachIsLegalOrStops, NeverBoth, StopsOnce, WorldIsOne};

/// Of verified code, with whatever inputs, share and fuel:
///
/// - `sorted`, `apart`: each schedule is legal or has a first entry without a leg, and not both;
/// - `world`: there is one world after it;
/// - `stop`: that entry is one.
pub fn schedule_laws()
    ensures sorted { EachIsLegalOrStops }
    ensures apart { NeverBoth }
    ensures world { WorldIsOne }
    ensures stop { StopsOnce }
{}
