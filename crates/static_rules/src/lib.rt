//! The rules that a program breaks, each by itself.
#![tactic(auto)]

ghost use Rattle.static_rules.specs.Examples.{Examples};
ghost use Rattle.static_rules.specs.Laws.{Same, SameFirst, SameFuns, SameFirstFun, FunsKept};
ghost use Rattle.static_rules.specs.Laws.{Decided, OneOutcome, TypedWhereNone};

/// The checker's list of faults has exactly those of the rules and the same first one, and so has
/// the list of faults of funs; and a small program that keeps the rules on funs is well typed, or
/// there is one first rule that it breaks, and never both: it is well typed exactly where it breaks
/// none. Each small program has one outcome.
pub fn breaks_law()
    ensures same { Same }
    ensures first { SameFirst }
    ensures funs { SameFuns }
    ensures first_fun { SameFirstFun }
    ensures kept { FunsKept }
    ensures decided { Decided }
    ensures none { TypedWhereNone }
    ensures outcome { OneOutcome }
{}

/// Programs with a fault each, which is the first rule that they break.
pub fn examples()
    ensures { Examples }
{}
