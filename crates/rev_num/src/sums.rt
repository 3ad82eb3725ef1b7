//! Sums over lists, and how often a number stands in one.
//!
//! The law is an empty function.

ghost use Rattle.rev_num.specs.SumLaws.{SumsHold};

/// How a sum changes with its list, and what it is at least.
pub fn sum_laws<A>()
    ensures { SumsHold A }
{}
