//! What the definition of a merge is worth.

ghost use Rattle.merge_kernels.specs.Merges.{HasMergesValue};

/// The definition of a program's merge has the value of that merge for all numbers: `value`.
pub fn kernel_laws()
    ensures value { HasMergesValue }
{}
