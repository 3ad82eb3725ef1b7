//! Revisions at a join.

ghost use Rattle.std.specs.Prelude.{◌≡◌, ◌<◌, ◌+◌, ◌^◌, ℕ, true, false};
ghost use Rattle.rev_code.specs.State.{State};
ghost use Rattle.rev_code.specs.Events.{past_join};
ghost use Rattle.code_machine.specs.Local.{CodeRun, End, Trap, end_of};
ghost use Rattle.code_machine.specs.Joining.{inherit, origin_of};
ghost use Rattle.version_map.specs.declared.end.Finish.TheVariants as finish;
ghost use Rattle.version_map.specs.Deltas.{at};
ghost use Rattle.block_run.specs.Remembering.{HasRoom};
ghost use Rattle.rev_vm.specs.Meaning.{IsEnd, IsReady, IsTold, IsTrap};
ghost use Rattle.rev_vm.specs.Revisions.{ClaimsAs};
ghost use Rattle.rev_vm.specs.States.{is_by_join};

use crate::end::{Stopped, break_off, stop_in_room};
use crate::runner::{Runner, Stage};
use leg_run::{Run, RunningRevision};
use version_map::{CodeTrap, EndValue, Finish, Snapshot, Written};

/// A revision at a join. The join stands in its list of forks and joins already, and there is room
/// for a list of what it has written, so that no call here takes memory.
pub struct AtJoin<P: Snapshot> {
    pub(crate) revision: Box<RunningRevision<P>>,
    pub(crate) is_try: bool,
    pub(crate) on: u32,
    // The list is made where the revision stops here.
    pub(crate) room: Vec<Written>,
    ghost ready: { IsReady revision.value.run },
    ghost enough: { HasRoom room (at revision.value.memory.first.roots)
        (P.size revision.value.memory.snapshot) },
}

/// A joiner, and the end of the revision that it joins, which is done. In a run of code in which
/// the joiner stands at its join, that end is of a revision of the same code: each location is one
/// of the code, and each word is of its location's kind.
pub struct Claimed<P: Snapshot> {
    pub(crate) at: AtJoin<P>,
    pub(crate) end: EndValue,
    ghost fuel: { at.revision.value.run.registers.fuel + end.fuel < 2 ^ 64 },
    ghost done: { end.finish ≡ finish.Done },
    ghost of: { ∥ ((g : CodeRun) × (c : State ℕ) × (j : End ℕ)
        × ClaimsAs g at.revision.value at.is_try at.on end c j) ∥₁ },
}

impl<P: Snapshot> AtJoin<P> {
    ghost use Rattle.rev_vm.specs.Values.{StandsAtJoin, StandsFor, joiner_group, runner_group};

    /// The number of the revision that is joined.
    pub fn on(&self) -> u32
        ensures { result ≡ self.now.on }
    {
        self.on
    }

    /// Whether a trap of that revision is dropped.
    pub fn is_try(&self) -> bool
        ensures { result ≡ self.now.is_try }
    {
        self.is_try
    }

    /// The line charged last.
    pub fn line(&self) -> u32
        ensures { (g : CodeRun) (c : State _) → StandsAtJoin g self.now c
            → result ≡ c.line }
    {
        self.revision.run.registers.line
    }

    /// The fuel that is left.
    pub fn fuel(&self) -> u64
        ensures rest { result ≡ self.now.revision.value.run.registers.fuel }
        ensures state { (g : CodeRun) (c : State _) → StandsAtJoin g self.now c
            → result ≡ c.fuel }
    {
        self.revision.run.registers.fuel
    }

    /// What the revision has printed so far.
    pub fn text(&self) -> &[u8]
        ensures { (g : CodeRun) (c : State _) → StandsAtJoin g self.now c
            → result.now ≡ c.text }
    {
        self.revision.run.text.as_slice()
    }

    /// The joiner with the end of the revision that it joins, which is done, in a run of code of
    /// which both are. The fuel of both together must have 64 bits.
    pub fn claim(self, end: EndValue) -> Claimed<P>
        requires fuel { self.revision.value.run.registers.fuel + end.fuel < 2 ^ 64 }
        requires done { end.finish ≡ finish.Done }
        requires of { (g : CodeRun) × (c : State ℕ) × (j : End ℕ)
            × StandsAtJoin g self c × IsEnd g j end }
        ensures at { result.at ≡ self }
        ensures end { result.end ≡ end }
    {
        Claimed { at: self, end }
    }

    /// The joiner of a revision that has trapped, at a Join: it traps with the same cause and line,
    /// and tells which revision trapped first.
    pub fn trapped(self, trap: CodeTrap) -> Stopped<P>
        requires { self.is_try ≡ false }
        ensures end { (g : CodeRun) (c : State _) (t : Trap _) → StandsAtJoin g self c
            → IsTrap t trap
            → IsEnd g (end_of (inherit c false self.on t)) result.end }
        ensures by_join { is_by_join result.end.finish ≡ true }
        ensures group { P.group result.snapshot ≡ joiner_group self }
    {
        let first = first_of(self.on, trap.origin);
        let AtJoin {
            revision,
            is_try,
            on,
            room,
        } = self;
        let passed = CodeTrap {
            cause: trap.cause,
            line: trap.line,
            origin: Some(first),
        };
        stop_in_room(revision, room, Finish::Trapped(passed))
    }

    /// The joiner of a revision that has trapped, at a TryJoin: what the revision left is dropped,
    /// and the joiner is told so.
    pub fn dropped(self) -> Runner<P>
        requires { self.is_try ≡ true }
        ensures state { (g : CodeRun) (c : State _) → StandsAtJoin g self c
            → StandsFor g result (past_join c true false self.on) }
        ensures group { runner_group result ≡ joiner_group self }
    {
        let AtJoin {
            mut revision,
            is_try,
            on,
            room,
        } = self;
        tell(&mut revision.run, 0);
        Runner {
            stage: Stage::Begun(revision),
        }
    }

    /// Its snapshot, given back.
    pub fn give_up(self) -> P::Spent
        ensures { P.spent_group result ≡ joiner_group self }
    {
        let AtJoin {
            revision,
            is_try,
            on,
            room,
        } = self;
        break_off(revision).give_up()
    }
}

/// The revision that trapped first.
fn first_of(on: u32, origin: Option<u32>) -> u32
    ensures { result ≡ origin_of on origin }
{
    match origin {
        None => on,
        Some(first) => first,
    }
}

/// Goes on with this word in place of the one on top.
pub(crate) fn tell(run: &mut Run, word: u64)
    requires { IsReady run.old }
    ensures { IsTold word run.old run.new }
{
    let top = run.registers.top - 1;
    run.words[top] = word;
    run.registers.at += 1;
}
