//! Worked codes, as theorems by computation.

ghost use Rattle.code_machine.specs.Rows as row;

/// Codes without a fault, and the outcomes of their schedules.
///
/// - `prints`, `no_more`: 7 is printed; then no number has a leg;
/// - `tries_none`: a TryJoin of `none` traps;
/// - `try_drops`, `passes_on`: a joinee traps after it printed; a TryJoin drops its text and goes
///   on, a Join takes its trap;
/// - `fuel`: what a done joinee has left is the joiner's, and what a trapped one has is lost;
/// - `joined_twice`: two revisions join a third, in both orders;
/// - `paths_stay`, `waits`: by two schedules revisions have other numbers and the same paths; a
///   revision whose join waits has no leg;
/// - `merges`, `faults`: 15, 6 and 5 make 16; a merge that overflows traps the joiner.
pub fn worked_codes()
    ensures prints { row.Prints }
    ensures no_more { row.NoMoreLegs }
    ensures tries_none { row.TriesNone }
    ensures try_drops { row.TryDrops }
    ensures passes_on { row.TrapPassesOn }
    ensures fuel { row.FuelComesBack }
    ensures joined_twice { row.JoinedTwice }
    ensures paths_stay { row.PathsStay }
    ensures waits { row.WaitingHasNone }
    ensures merges { row.MergesThree }
    ensures faults { row.MergeFaults }
{}
