//! Each verified code has one outcome, whatever the order of the legs of its revisions.

ghost use Rattle.code_machine_laws.specs.Outcomes.{EachHasOne};

/// Verified code has one outcome, with every input, share and fuel: some schedule of its `main` is
/// complete, and the world after each complete one has this outcome.
pub fn code_outcome_law()
    ensures { EachHasOne }
{}
