//! Worked traces, as theorems by computation.

ghost use Rattle.code_traces.specs.Rows as row;

/// Codes without a fault, schedules of theirs, and the traces of the worlds after these with their
/// lines.
///
/// - `merges`, `faults`: a child and its joiner add to one variable; 15, 6 and 5 make 16, and a
///   merge that overflows names the variable;
/// - `passes_on`: a child writes a cell of an array and traps, and its joiner takes over the trap;
/// - `paths_stay`: by two schedules revisions have other numbers and the same parts.
pub fn worked_traces()
    ensures merges { row.Merges }
    ensures faults { row.MergeFaults }
    ensures passes_on { row.TrapPassesOn }
    ensures paths_stay { row.PathsStay }
{}
