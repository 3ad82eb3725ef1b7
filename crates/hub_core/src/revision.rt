//! What a hub has to know of the revisions that it keeps.
ghost use Rattle.std.specs.Prelude.{◌≡◌, ℕ, List, Bool, true, false};
ghost use Rattle.hub_core.specs.HubMachine.{HubMachine};

/// A machine of revisions by numbers, and the values that stand for its local states. What the
/// snapshot of a revision belongs to, its group, no leg changes.
pub trait Revision {
    /// A local state. No value of it is made.
    type State;
    /// A revision before its leg.
    type Runner;
    /// A revision that stands at its join.
    type AtJoin;
    /// What a revision that has ended leaves.
    type End: Drop;
    /// A joiner that has taken an end in.
    type Claimed;
    /// A joiner that its joinee's trap has stopped.
    type Stopped;

    ghost machine: { HubMachine Self.State Self.Runner Self.AtJoin Self.End };

    /// It is the end of that state.
    ghost ends: { Self.End → Self.State → Type 0 };

    /// It is that joiner, which has taken that end in.
    ghost claimed: { Self.Claimed → Self.AtJoin → Self.End → Type 0 };

    /// It is that joiner, which that end has stopped.
    ghost stopped: { Self.Stopped → Self.AtJoin → Self.End → Type 0 };

    /// A join left this end, and not a leg.
    ghost by_join: { Self.End → Bool };

    /// What their snapshots belong to.
    ghost claimed_group: { Self.Claimed → List ℕ };

    ghost stopped_group: { Self.Stopped → List ℕ };

    /// The number that it joins.
    fn on(at: &Self::AtJoin) -> u32
        ensures { result ≡ machine.on at.now };

    /// Takes in the end of its joinee, which did not end by a trap.
    fn claim(at: Self::AtJoin, end: Self::End) -> Self::Claimed
        requires { machine.trapped end ≡ false }
        ensures of { claimed result at end }
        ensures group { claimed_group result ≡ machine.joiner_group at };

    /// Takes in the trap of its joinee, which it does not outlive.
    fn trapped(at: Self::AtJoin, end: Self::End) -> Self::Stopped
        requires { (machine.trapped end ≡ true) × (machine.is_try at ≡ false) }
        ensures of { stopped result at end }
        ensures group { stopped_group result ≡ machine.joiner_group at };

    /// Whether it ended by a trap.
    fn is_trapped(end: &Self::End) -> bool
        ensures { result ≡ machine.trapped end.now };

    /// Whether it outlives the trap of its joinee.
    fn is_try(at: &Self::AtJoin) -> bool
        ensures { result ≡ machine.is_try at.now };

    /// Whether a join left it, and not a leg.
    fn is_by_join(end: &Self::End) -> bool
        ensures { result ≡ by_join end.now };
}
