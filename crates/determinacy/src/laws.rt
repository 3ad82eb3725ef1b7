//! What holds of the rules of every program.

ghost use Rattle.std.specs.Prelude.{ℕ, ◌+◌, ◌≤◌};
ghost use Rattle.revision_machine.specs.Rules.{AreRoomy, IsFirst, IsRoomy, Keeps};
ghost use Rattle.revision_calculus.specs.Program.{Setting};
ghost use Rattle.revision_calculus.specs.State.{Local};
ghost use Rattle.revision_calculus.specs.Calculus.{main};
ghost use Rattle.determinacy.specs.Rules.{rules_of, most_fuel, IsSmall};

/// The rules of each program, with its inputs and share.
///
/// - `keeps`: they keep the conditions of the laws: each fork is counted once, handles come from
///   where they may, and each event uses up 1 of the weight of what it takes;
/// - `first`: `main` with at most 4,000,000,000 units of fuel holds no handle and is within the
///   limit;
/// - `small`: a local state within the limit has made fewer than 2^32 - 1 forks, and has at most
///   4,000,000,000 units of fuel;
/// - `both`: two that are within the limit together have together at most that fuel.
pub fn rule_laws()
    ensures keeps { (s : Setting) → Keeps (rules_of s) }
    ensures first { (s : Setting) (fuel : ℕ) → fuel ≤ most_fuel
        → IsFirst (rules_of s) (main s fuel) }
    ensures small { (s : Setting) (l : Local) → IsRoomy (rules_of s) l → IsSmall l }
    ensures both { (s : Setting) (l m : Local) → AreRoomy (rules_of s) l m
        → l.fuel + m.fuel ≤ most_fuel }
{}
