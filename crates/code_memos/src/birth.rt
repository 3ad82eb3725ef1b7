//! With what local state each revision begins, whatever the schedule.

ghost use Rattle.code_memos.specs.Births.{BornStand, LeavesEnd, NewIsBorn, OneBirth};

use revision_machine::LawfulMachine;

/// Where a complete run does not end in Twice, whatever revision begins in some run stands at its
/// end, and begins with the same local state in every run; and one that its first event ends has
/// that end there. A revision in a state to which no event leads is in that with which it began.
pub fn birth_laws<R: LawfulMachine>()
    ensures one { (s : R) (main : _) → OneBirth (R.lawful s).machine main }
    ensures stand { (s : R) (main : _) → BornStand (R.lawful s).machine main }
    ensures leaves { (s : R) (main : _) → LeavesEnd (R.lawful s).machine main }
    ensures new { (s : R) (main : _) → NewIsBorn (R.lawful s).machine main }
{}
