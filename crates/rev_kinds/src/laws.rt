//! What the rules on kinds say of expressions.

ghost use Rattle.typed_programs.specs.KindLaws.{Sound, Complete, Only};

/// Where each local has a kind and each application is that of a known fun, an expression that
/// breaks no rule has a kind by the typing rules, which is the kind that its outermost form fixes.
/// An expression that has a kind by the typing rules breaks no rule, and it has no other kind.
pub fn typing_laws()
    ensures sound { Sound }
    ensures complete { Complete }
    ensures only { Only }
{}
