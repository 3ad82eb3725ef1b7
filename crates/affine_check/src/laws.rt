//! Laws of the affine rule, each of which is a function that does nothing: what it ensures holds of
//! every program, input, fuel and share, whatever the order of the steps.

ghost use Rattle.std.specs.Prelude.{ℕ};
ghost use Rattle.rev_syntax.specs.Trees.{ProgramTree};
ghost use Rattle.revision_calculus.specs.Program.{Setting};
ghost use Rattle.revision_calculus.specs.Kinded.{IsAccepted};
ghost use Rattle.affine_check.specs.Affine.{IsAffine};
ghost use Rattle.affine_check.specs.Owned.{UsesHandlesOnce};
ghost use Rattle.affine_check.specs.Laws.{Decides, FindsBreaches, NeverTwice, NoneShared};
ghost use Rattle.affine_check.specs.Laws.{OnlyBreaches, OwnerLaw, SecondUsesMeanHandles};
ghost use Rattle.affine_check.specs.Places.{first_breakage};

/// No run of a well-typed program that keeps the affine rule reaches the state of a second join.
/// Such a program uses each handle once, which suffices: in every state that a run reaches, each
/// revision is named by at most one live place of the revisions that no join has taken, and one
/// that a join has taken by none. No shared variable has a handle.
pub fn affine_laws()
    ensures affine { (s : Setting) (fuel : ℕ) → IsAccepted s.program → IsAffine s.program
        → NeverTwice s fuel }
    ensures uses_once { (p : ProgramTree) → IsAccepted p → IsAffine p → UsesHandlesOnce p }
    ensures once { (s : Setting) (fuel : ℕ) → IsAccepted s.program
        → UsesHandlesOnce s.program → NeverTwice s fuel }
    ensures owners { (s : Setting) (fuel : ℕ) → IsAccepted s.program
        → UsesHandlesOnce s.program → OwnerLaw s fuel }
    ensures shared { (s : Setting) (fuel : ℕ) → IsAccepted s.program
        → UsesHandlesOnce s.program → NoneShared s fuel }
{}

/// The lists of places have each place where a program breaks the rule; and where it is well typed,
/// they have no other place. So a well-typed program keeps the rule where there is none, and else
/// the first of them is the first that it breaks: at the least place, and there of the least
/// number.
pub fn place_laws()
    ensures found { (p : ProgramTree) → FindsBreaches p }
    ensures sound { (p : ProgramTree) → IsAccepted p → OnlyBreaches p }
    ensures decided { (p : ProgramTree) → IsAccepted p → Decides p (first_breakage p) }
{}

/// Where a well-typed program uses a handle twice, the second use too means a local that is a
/// handle. No name in scope is declared anew, so with no new value between them it is the same
/// local.
pub fn second_use_law()
    ensures { (p : ProgramTree) → IsAccepted p → SecondUsesMeanHandles p }
{}
