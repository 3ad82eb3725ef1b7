//! How a revision runs between two events.
ghost use Rattle.std.specs.Prelude.{◌≡◌, ℕ, List, true, false, IfOk};
ghost use Rattle.hub_workers.specs.Legs.{IsReached, HaveMet, Comes, IsSettled, IsEndBy};
ghost use Rattle.hub_workers.specs.Legs.{IsEventOf, IsSettledOf, IsSameHand};

use hub_core::Revision;
use std::alloc::AllocError;

/// Where a leg leads.
pub enum LegEvent<F, A, E> {
    Fork(F),
    Join(A),
    /// It has ended, by itself.
    End(E),
}

/// What becomes of a joiner that has taken an end in.
pub enum SettledLeg<R, E> {
    Run(R),
    /// Its join trapped it.
    Trap(E),
}

/// How the revisions of a machine run. Each call that takes a hand leaves it in the same group, and
/// for the same runs; where it finds no memory, it gives up what it was given. A state that a call
/// is told of is one of a run that the hand is for.
pub trait Legs: Revision {
    /// What a thread works with. It takes what is left of the snapshots that are given back.
    type Hand;
    /// A revision at a fork.
    type AtFork;
    /// A forker that does not know its child's number.
    type Parent;

    /// The hand is for the runs that begin in this state.
    ghost begins: { Self.Hand → Self.State → Type 0 };

    // What the snapshots belong to.
    ghost hand_group: { Self.Hand → List ℕ };

    ghost fork_group: { Self.AtFork → List ℕ };

    ghost parent_group: { Self.Parent → List ℕ };

    /// The forker, once it knows its child's number.
    ghost forker: { Self.AtFork → ℕ → Self.State };

    ghost child: { Self.AtFork → Self.State };

    ghost told_as: { Self.Parent → ℕ → Self.State };

    /// A leg, to its event.
    fn run_leg(
        hand: &mut Self::Hand,
        runner: Self::Runner,
    ) -> Result<LegEvent<Self::AtFork, Self::AtJoin, Self::End>, AllocError>
        requires state { IsReached Self.machine (begins hand.old)
            (Self.machine.runs runner) }
        requires group { Self.machine.runner_group runner ≡ hand_group hand.old }
        ensures event { IfOk result (Comes Self.machine Self.ends
            Self.by_join forker child (Self.machine.runs runner)) }
        ensures group { IfOk result (IsEventOf Self.machine fork_group
            (hand_group hand.old)) }
        ensures hand { IsSameHand begins hand_group hand.old hand.new };

    /// A forker and its child.
    fn split(
        hand: &mut Self::Hand,
        at: Self::AtFork,
    ) -> Result<(Self::Parent, Self::Runner), AllocError>
        requires group { fork_group at ≡ hand_group hand.old }
        ensures parent { IfOk result (λ r. (n : ℕ) → told_as r.0 n ≡ forker at n) }
        ensures child { IfOk result (λ r. Self.machine.runs r.1 ≡ child at) }
        ensures parent_group { IfOk result (λ r. parent_group r.0 ≡ hand_group hand.old) }
        ensures child_group { IfOk result
            (λ r. Self.machine.runner_group r.1 ≡ hand_group hand.old) }
        ensures hand { IsSameHand begins hand_group hand.old hand.new };

    /// The forker, which knows its child's number.
    fn told(parent: Self::Parent, number: u32) -> Self::Runner
        ensures state { Self.machine.runs result ≡ told_as parent number }
        ensures group { Self.machine.runner_group result ≡ parent_group parent };

    /// What becomes of a joiner that has taken in an end that is no trap.
    fn settle(
        hand: &mut Self::Hand,
        claimed: Self::Claimed,
    ) -> Result<SettledLeg<Self::Runner, Self::End>, AllocError>
        requires met { (a : Self.AtJoin) × (e : Self.End)
            × Self.claimed claimed a e × (Self.machine.trapped e ≡ false)
            × HaveMet Self.machine Self.ends (begins hand.old) a e }
        requires group { Self.claimed_group claimed ≡ hand_group hand.old }
        ensures state { (a : Self.AtJoin) (e : Self.End) → Self.claimed claimed a e
            → Self.machine.trapped e ≡ false
            → HaveMet Self.machine Self.ends (begins hand.old) a e
            → IfOk result (IsSettled Self.machine Self.ends
            Self.by_join (Self.machine.joined a e)) }
        ensures group { IfOk result (IsSettledOf Self.machine (hand_group hand.old)) }
        ensures hand { IsSameHand begins hand_group hand.old hand.new };

    /// The end of a joiner that its joinee's trap has stopped.
    fn retire(hand: &mut Self::Hand, stopped: Self::Stopped) -> Self::End
        requires met { (a : Self.AtJoin) × (e : Self.End)
            × Self.stopped stopped a e × (Self.machine.trapped e ≡ true)
            × (Self.machine.is_try a ≡ false)
            × HaveMet Self.machine Self.ends (begins hand.old) a e }
        requires group { Self.stopped_group stopped ≡ hand_group hand.old }
        ensures state { (a : Self.AtJoin) (e : Self.End) → Self.stopped stopped a e
            → Self.machine.trapped e ≡ true
            → Self.machine.is_try a ≡ false
            → HaveMet Self.machine Self.ends (begins hand.old) a e
            → IsEndBy Self.machine Self.ends Self.by_join
            true result (Self.machine.joined a e) }
        ensures hand { IsSameHand begins hand_group hand.old hand.new };

    /// A joiner that outlives its joinee's trap.
    fn dropped(at: Self::AtJoin) -> Self::Runner
        requires { Self.machine.is_try at ≡ true }
        ensures state { (e : Self.End) → Self.machine.trapped e ≡ true
            → Self.machine.runs result ≡ Self.machine.joined at e }
        ensures group { Self.machine.runner_group result
            ≡ Self.machine.joiner_group at };

    /// Gives back the snapshot of a revision that does not go on.
    fn give_up_runner(hand: &mut Self::Hand, runner: Self::Runner)
        requires { Self.machine.runner_group runner ≡ hand_group hand.old }
        ensures { IsSameHand begins hand_group hand.old hand.new };

    fn give_up_joiner(hand: &mut Self::Hand, at: Self::AtJoin)
        requires { Self.machine.joiner_group at ≡ hand_group hand.old }
        ensures { IsSameHand begins hand_group hand.old hand.new };

    fn give_up_parent(hand: &mut Self::Hand, parent: Self::Parent)
        requires { parent_group parent ≡ hand_group hand.old }
        ensures { IsSameHand begins hand_group hand.old hand.new };
}
