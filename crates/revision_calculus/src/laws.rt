//! Laws of every run, each of which is a function that does nothing: what it ensures holds of every
//! program, input, fuel and share, whatever the order of the steps.

ghost use Rattle.std.specs.Prelude.{ℕ, ◌+◌, ◌*◌, ◌≤◌};
ghost use Rattle.rev_num.specs.Limits.{most_fuel};
ghost use Rattle.rev_syntax.specs.Trees.{ProgramTree};
ghost use Rattle.revision_machine.specs.Laws.{
  BoundLaw,
  CompletionLaw,
  CountLaw,
  DiamondLaw,
  ForkerLaw,
  HandleLaw,
  KeptLaw,
  NoBlockedEnd,
  SpendingLaw,
  StandingLaw,
  TwiceInAll,
  TwiceIsFinal,
  UniqueEnd,
};
ghost use Rattle.revision_calculus.specs.Program.{Setting};
ghost use Rattle.revision_calculus.specs.Calculus.{calculus, main};
ghost use Rattle.revision_calculus.specs.Complete.{OneOutcome};
ghost use Rattle.revision_calculus.specs.HandlesHeld.{Holds};
ghost use Rattle.revision_calculus.specs.KeptBySteps.{IsShaped, PlaceLaw};
ghost use Rattle.revision_calculus.specs.Tight.{Takes};
ghost use Rattle.revision_calculus.specs.Kinded.{IsKinded, IsAccepted, JoinLaw, MergeLaw, ValueLaw};

/// Runs are determinate: two steps of different revisions can be made in either order, any two
/// complete runs from one state end in equal states, and the error state of a second join is
/// reached in every complete run or in none. So a program with its inputs, fuel and share has one
/// outcome.
pub fn determinacy_laws()
    ensures diamond { (s : Setting) (fuel : ℕ) → DiamondLaw (calculus s) (main s fuel) }
    ensures unique_end { (s : Setting) (fuel : ℕ) → UniqueEnd (calculus s) (main s fuel) }
    ensures twice_in_all { (s : Setting) (fuel : ℕ) → TwiceInAll (calculus s) (main s fuel) }
    ensures twice_is_final { (s : Setting) → TwiceIsFinal (calculus s) }
    ensures one_outcome { (s : Setting) (fuel : ℕ) → OneOutcome s fuel }
{}

/// Each revision but `main` has its forker in the state, which has counted it. Each handle in a
/// snapshot, in writes, in locals or in a phase names a revision of the state, which precedes its
/// holder in post-order. `main` stands in every state but that of a second join, and what is marked
/// has ended. So at the end of a run, if it is not that state, `main` stands, and every revision
/// has ended.
pub fn handle_laws()
    ensures forkers { (s : Setting) (fuel : ℕ) → ForkerLaw (calculus s) (main s fuel) }
    ensures handles { (s : Setting) (fuel : ℕ) → HandleLaw (calculus s) (main s fuel) Holds }
    ensures standing { (s : Setting) (fuel : ℕ) → StandingLaw (calculus s) (main s fuel) }
    ensures no_blocked_end { (s : Setting) (fuel : ℕ) → NoBlockedEnd (calculus s) (main s fuel) }
{}

/// Fuel is never made: the fuel of all revisions that no join has taken is at most that of the
/// start, and so is the sum of it and of the forks that they made. A run has at most `3 * fuel + 2`
/// steps, even at most `2 * fuel + 1`, and for each fuel a run of some program takes that many. A
/// state has at most `1 + fuel` revisions, so fewer than 2^32 with the most fuel that a run can be
/// given; and every run can be completed.
pub fn fuel_laws()
    ensures fuel { (s : Setting) (fuel : ℕ)
        → SpendingLaw (calculus s) (main s fuel) 0 (λ l. l.fuel) }
    ensures forks { (s : Setting) (fuel : ℕ)
        → SpendingLaw (calculus s) (main s fuel) 0 (λ l. l.fuel + l.forks) }
    ensures bound { (s : Setting) (fuel : ℕ) → BoundLaw (calculus s) (main s fuel) (3 * fuel + 2) }
    ensures least_bound { (s : Setting) (fuel : ℕ) →
        BoundLaw (calculus s) (main s fuel) (2 * fuel + 1) }
    ensures tight { Takes (λ fuel. 2 * fuel + 1) }
    ensures count { (s : Setting) (fuel : ℕ) → CountLaw (calculus s) (main s fuel) (1 + fuel) }
    ensures few { (s : Setting) (fuel : ℕ) → fuel ≤ most_fuel →
        CountLaw (calculus s) (main s fuel) 4294967295 }
    ensures completion { (s : Setting) (fuel : ℕ) → CompletionLaw (calculus s) (main s fuel) }
{}

/// In every state that a run reaches, each revision has a snapshot and writes over all locations,
/// at most 1,000 frames, and one at least until it has ended. The location of a merge that faulted,
/// in a trap of its own or of a joinee, is below the number of locations, and so below the number
/// of the values of an outcome.
pub fn shape_laws()
    ensures shaped { (s : Setting) (fuel : ℕ) → KeptLaw (calculus s) (main s fuel) (IsShaped s) }
    ensures placed { (s : Setting) (fuel : ℕ) → PlaceLaw s fuel }
{}

/// In every state that a run of a well-typed program reaches, each value is of the kind that the
/// static rules give: in the snapshot and the writes of each location, in the locals of each frame,
/// which has all names in scope, and where a left side waits. What remains of each frame is typed,
/// so that what is returned is of the procedure's kind. An expression has a value of its kind,
/// where it has one. A merge of three ints is an int or a fault of arithmetic, and whichever two
/// revisions join, their merges are of three ints, so that no merge has another answer.
pub fn kind_laws()
    ensures kinded { (s : Setting) (fuel : ℕ) → IsAccepted s.program
        → KeptLaw (calculus s) (main s fuel) (IsKinded s) }
    ensures values { (s : Setting) → IsAccepted s.program → ValueLaw s }
    ensures merges { (p : ProgramTree) → IsAccepted p → MergeLaw p }
    ensures joins { (s : Setting) (fuel : ℕ) → IsAccepted s.program → JoinLaw s fuel }
{}
