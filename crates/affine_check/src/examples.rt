//! Programs that keep or break the affine rule, each of which is named in `specs/Examples.antt`
//! with its text.

ghost use Rattle.revision_calculus.specs.Kinded.{IsAccepted};
ghost use Rattle.affine_check.specs.Affine.{IsAffine, copied, in_loop, stored, used_twice};
ghost use Rattle.affine_check.specs.Laws.{IsRefused};
ghost use Rattle.affine_check.specs.Examples as x;

/// Programs that keep the rule: one use, one in each arm of an `if`, one before a `return` and one
/// behind it, and one after each value. The third is well typed.
pub fn affine_programs()
    ensures once { IsAffine x.joins_once }
    ensures either { IsAffine x.joins_in_either }
    ensures by_return { IsAffine x.returns_after_join }
    ensures anew { IsAffine x.joins_anew }
    ensures typed { IsAccepted x.returns_after_join }
{}

/// How programs break the rule first, and where in their texts.
pub fn other_programs()
    ensures joins { IsRefused x.joins_twice used_twice 54 }
    ensures tries { IsRefused x.tries_twice used_twice 74 }
    ensures passes { IsRefused x.passes_and_joins used_twice 84 }
    ensures in_turns { IsRefused x.joins_in_loop used_twice 58 }
    ensures renews { IsRefused x.renews_in_loop in_loop 58 }
    ensures copies { IsRefused x.copies copied 47 }
    ensures picks { IsRefused x.picks copied 58 }
    ensures stores { IsRefused x.stores stored 38 }
{}
