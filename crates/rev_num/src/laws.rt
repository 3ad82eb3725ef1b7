//! Laws, each of which is a function that does nothing: what it ensures holds of every number and
//! every path.

ghost use Rattle.std.specs.Prelude.{IsTrue};
ghost use Rattle.rev_num.specs.Laws.{DecimalsAreExact, DivisionFailsOnlyThere, DivisionTruncates};
ghost use Rattle.rev_num.specs.Laws.{WordsAndNumbersAreInverse, WrittenIsRead};
ghost use Rattle.rev_num.specs.Path.{before};
ghost use Rattle.rev_num.specs.PostOrder.{ChildrenComeFirst, ChildrenComeInOrder};
ghost use Rattle.rev_num.specs.PostOrder.{IsStrictTotalOrder, TestsAreExact};

/// Post-order of paths: it is a strict total order, in which a child comes before its forker, and
/// an earlier child, with all that stands below it, before a later one.
pub fn post_order_laws()
    ensures exact { TestsAreExact }
    ensures order { IsStrictTotalOrder (λ p q. IsTrue (before p q)) }
    ensures children_first { ChildrenComeFirst }
    ensures children_in_order { ChildrenComeInOrder }
{}

/// The words of signed numbers.
pub fn word_laws()
    ensures { WordsAndNumbersAreInverse }
{}

/// The decimals of numbers.
pub fn decimal_laws()
    ensures exact { DecimalsAreExact }
    ensures read_back { WrittenIsRead }
{}

/// The quotient and the remainder.
pub fn division_laws()
    ensures truncates { DivisionTruncates }
    ensures fails { DivisionFailsOnlyThere }
{}
