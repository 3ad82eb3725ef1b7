//! What values stand for.

ghost use Rattle.rev_vm.specs.Laws.{ClaimsOneState, HasOneState, JoinsInOneState, LeavesOneEnd};

/// A value stands for one state or end alone, which is a function of it.
pub fn standing_laws()
    ensures states { HasOneState }
    ensures joiners { JoinsInOneState }
    ensures ends { LeavesOneEnd }
    ensures claims { ClaimsOneState }
{}
