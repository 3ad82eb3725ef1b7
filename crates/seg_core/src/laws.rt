//! What every run of steps keeps.
ghost use Rattle.std.specs.Prelude.{◌≢◌, ℕ};
ghost use Rattle.seg_core.specs.Core.{Core, Counted};
ghost use Rattle.seg_core.specs.Steps.{CoreStep, Steps, Reached, holder, GivesTo, SameBase};
ghost use Rattle.seg_core.specs.Steps.{IsFreedAtLast};

/// Laws of every state that steps lead to from the empty one. Each live count is the number of
/// references and at least 1; a segment gets free exactly in the step that takes its last
/// reference; and no step of another holder changes a holder's base, but the one that gives it its
/// first reference.
pub fn step_laws()
    ensures counts { (k : Core) → Reached k → Counted k }
    ensures frees { (k k' : Core) (s : CoreStep) → Reached k → Steps k s k' → IsFreedAtLast k k' }
    ensures bases { (k k' : Core) (s : CoreStep) (g : ℕ) → Reached k → Steps k s k' → holder s ≢ g
        → ¬ (GivesTo s g) → SameBase k k' g }
{}
