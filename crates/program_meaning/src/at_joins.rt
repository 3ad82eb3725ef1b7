//! A joiner agrees with its code behind a join.

ghost use Rattle.program_meaning.specs.JoinLaws.{JoinsAgree};
ghost use Rattle.program_meaning.specs.Merges.{CodeHasTheMerges};

/// The joiner of the calculus and its code are the same behind the join of a revision that has
/// ended on both sides alike: it has taken over what the other wrote, by the merges of the program,
/// or trapped with the least location whose merge faults, or inherited the trap, or goes on without
/// what it wrote.
pub fn join_law()
    ensures { JoinsAgree }
{}

/// For every kind of handle, revision numbers among them: the merge of each cumulative location of
/// generated code gives, for all three numbers, the value of the merge that the program declares
/// for it, or the same fault.
pub fn merge_law<H>()
    ensures { CodeHasTheMerges H }
{}
