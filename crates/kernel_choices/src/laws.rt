//! Choices by definitions serve the code of a program.

ghost use Rattle.kernel_choices.specs.Choices.{ChoicesServe, NoDefinitionIsAnApplication};

/// Kernels that are chosen by the definitions of a program's merges make a plan for its code:
/// `plan`. In a well-typed program a merge has no definition exactly where its expression applies a
/// fun: `none`.
pub fn choice_laws()
    ensures plan { ChoicesServe }
    ensures none { NoDefinitionIsAnApplication }
{}
