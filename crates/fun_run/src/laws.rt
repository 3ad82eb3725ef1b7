//! What merges on words stand for.

ghost use Rattle.fun_run.specs.Merging.{BlocksGiveTheMerges, ComposesAlike};

/// The merges of words by the merge blocks of verified code, in which each number has 64 bits,
/// stand for those of the machine of code: `blocks`. Where merges of words stand for those of the
/// code, whole compositions do, with the same first fault: `compositions`.
pub fn merge_laws()
    ensures blocks { BlocksGiveTheMerges }
    ensures compositions { ComposesAlike }
{}
