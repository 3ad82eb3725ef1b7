//! What a revision reads under its own delta.
ghost use Rattle.std.specs.Prelude.{◌≡◌, ◌≢◌, ℕ, ◌<◌, ◌≤◌, List, IfOk, IfErr};
ghost use Rattle.version_map.specs.Deltas.{locations, IsEmpty};
ghost use Rattle.version_map.specs.Overlay.{under, Agree};
ghost use Rattle.version_map.specs.declared.snapshot.How.{How};
ghost use Rattle.version_map.specs.declared.snapshot.Collapsed.{Collapsed};
ghost use Rattle.version_map.specs.declared.snapshot.Collapsed.TheVariants as collapsed;

use crate::delta::Delta;
use std::alloc::{AllocError, Global};

/// How a child has its base.
#[derive(Clone, Copy, PartialEq, Eq)]
pub enum How {
    /// It shares what its forker reads, and the forker's delta has become a part of that.
    Shared,
    /// It has a copy of its own, and the forker's delta stays.
    Copied,
}

/// What a collapse came to.
#[derive(Clone, Copy)]
pub enum Collapsed {
    /// The newest part of the base went into the delta.
    Took,
    /// Others still refer to the newest part: this count of references was found.
    Kept { count: u64 },
    /// There is no part to take.
    Base,
}

/// A base of one word for each location, which stays the same whatever others do.
pub trait Snapshot: Sized {
    ghost use Rattle.version_map.specs.declared.snapshot.How.TheVariants.{Shared, Copied};

    /// What is left of a snapshot that was given back.
    type Spent;

    // How many locations there are.
    ghost size: { Self → ℕ };

    // The word of a location.
    ghost base: { Self → ℕ → ℕ };

    // Each Took lowers it, so a caller that collapses until Kept or Base returns.
    ghost depth: { Self → ℕ };

    // What it belongs to. No call changes it.
    ghost group: { Self → List ℕ };

    // That its last call other than `read` was a collapse that gave this answer, as far as the
    // snapshot tells it.
    ghost answered: { Self → Collapsed → Type 0 };

    // Which answers a fork may give.
    ghost hows: { How → Type 0 };

    // The group of the snapshot that was given back.
    ghost spent_group: { Self.Spent → List ℕ };

    /// The base's word.
    fn read(&mut self, location: u32) -> u64
        requires { location < size self.old }
        ensures value { result ≡ base self.old location }
        ensures size { size self.new ≡ size self.old }
        ensures group { group self.new ≡ group self.old }
        ensures depth { depth self.new ≡ depth self.old }
        ensures answered { (c : Collapsed) → answered self.old c → answered self.new c }
        ensures base { Agree (size self.old) (base self.new) (base self.old) };

    /// A child, whose base is this base under the delta. The base under the delta stays what it is.
    /// Where memory is wanting, the base, its depth and the delta stay too.
    fn fork(&mut self, alloc: Global, delta: &mut Delta) -> Result<(Self, How), AllocError>
        requires { locations delta.old ≡ size self.old }
        ensures size { size self.new ≡ size self.old }
        ensures group { group self.new ≡ group self.old }
        ensures locations { locations delta.new ≡ locations delta.old }
        ensures child { IfOk result
            (λ r. Agree (size self.old) (base r.0) (under delta.old (base self.old))) }
        ensures child_size { IfOk result (λ r. size r.0 ≡ size self.old) }
        ensures child_group { IfOk result (λ r. group r.0 ≡ group self.old) }
        ensures parent { Agree (size self.old) (under delta.new (base self.new))
            (under delta.old (base self.old)) }
        ensures how { IfOk result (λ r. hows r.1) }
        ensures shared { IfOk result (λ r. r.1 ≡ Shared → IsEmpty delta.new) }
        ensures copied { IfOk result (λ r. r.1 ≡ Copied → delta.new ≡ delta.old) }
        ensures failed { IfErr result (λ _. delta.new ≡ delta.old) }
        ensures kept { IfErr result (λ _. Agree (size self.old) (base self.new) (base self.old)) }
        ensures deep { IfErr result (λ _. depth self.new ≡ depth self.old) };

    /// Takes the newest part of the base into the delta, where no other refers to it. The base
    /// under the delta stays what it is. Kept has a count above 1, and Base comes exactly where
    /// there is no part; both leave the delta, the base and its depth.
    fn collapse(&mut self, into: &mut Delta) -> Collapsed
        requires { locations into.old ≡ size self.old }
        ensures size { size self.new ≡ size self.old }
        ensures group { group self.new ≡ group self.old }
        ensures locations { locations into.new ≡ locations into.old }
        ensures base { Agree (size self.old) (under into.new (base self.new))
            (under into.old (base self.old)) }
        ensures answered { answered self.new result }
        ensures took { result ≡ collapsed.Took → depth self.new < depth self.old }
        ensures kept { (n : ℕ) → result ≡ collapsed.Kept n → (1 < n) × (into.new ≡ into.old)
            × (depth self.new ≡ depth self.old)
            × Agree (size self.old) (base self.new) (base self.old) }
        ensures bottom { result ≡ collapsed.Base → (depth self.old ≡ 0)
            × (depth self.new ≡ depth self.old) × (into.new ≡ into.old)
            × Agree (size self.old) (base self.new) (base self.old) }
        ensures exact { depth self.old ≡ 0 → result ≡ collapsed.Base };

    /// Gives the snapshot back.
    fn release(self) -> Self::Spent
        ensures { spent_group result ≡ group self };
}

/// Collapses until the answer is Kept or Base, and gives that answer.
pub fn collapse_all<P: Snapshot>(snapshot: &mut P, into: &mut Delta) -> Collapsed
    requires { locations into.old ≡ P.size snapshot.old }
    ensures last { result ≢ collapsed.Took }
    ensures answered { P.answered snapshot.new result }
    ensures kept { (n : ℕ) → result ≡ collapsed.Kept n → 1 < n }
    ensures bottom { result ≡ collapsed.Base → P.depth snapshot.new ≡ 0 }
    ensures depth { P.depth snapshot.new ≤ P.depth snapshot.old }
    ensures same { P.depth snapshot.new ≡ P.depth snapshot.old → into.new ≡ into.old }
    ensures size { P.size snapshot.new ≡ P.size snapshot.old }
    ensures group { P.group snapshot.new ≡ P.group snapshot.old }
    ensures locations { locations into.new ≡ locations into.old }
    ensures base { Agree (P.size snapshot.old) (under into.new (P.base snapshot.new))
        (under into.old (P.base snapshot.old)) }
{
    loop {
        match snapshot.collapse(into) {
            Collapsed::Took => {},
            last => return last,
        }
    }
}
