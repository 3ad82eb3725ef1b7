//! The instructions of a leg, and the join of a revision that has ended.

ghost use Rattle.std.specs.Prelude.{◌≡◌, ◌<◌, ◌^◌, ℕ, List, IfOk, length};
ghost use Rattle.rev_code.specs.State.{State};
ghost use Rattle.rev_code.specs.Step.{forks};
ghost use Rattle.rev_code.specs.Words.{Word};
ghost use Rattle.block_run.specs.Area.{count};
ghost use Rattle.rev_vm.specs.Meaning.{AreMergesOf};
ghost use Rattle.code_machine.specs.Local.{CodeRun, End};
ghost use Rattle.code_machine.specs.Leg.{leg};
ghost use Rattle.code_machine_laws.specs.LegReads.{leg_reads};
ghost use Rattle.leg_run.specs.Marks.{HasMarked, marks_of};
ghost use Rattle.rev_vm.specs.Meaning.{IsEnd};
ghost use Rattle.version_map.specs.Deltas.{locations};
ghost use Rattle.rev_vm.specs.Starts.{run_under};
ghost use Rattle.version_map.specs.declared.end.Finish.TheVariants as finish;
ghost use Rattle.code_world.specs.LegOutcomes.{HasCome, HasMet, IsMeeting, meets};
ghost use Rattle.code_world.specs.Slots.{Runs, StandsAtFork, StandsAtJoin};

use crate::slot::WorldSlot;
use leg_run::{CodeSetting, ReadMarks};
use rev_vm::{
    AtFork, AtJoin, Event, Runner, Settled, Spares, retire, run_leg, run_leg_noting, settle,
};
use std::alloc::{AllocError, Global};
use version_map::{CodeTrap, EndValue, Finish, MergeBy, Whole};

/// What the instructions of a leg come to.
pub enum Came {
    /// A fork: the forker, its child, and the line.
    Forked(Runner<Whole>, Runner<Whole>, u32),
    /// A join.
    Standing(AtJoin<Whole>),
    /// The revision has ended.
    Ended(EndValue),
}

/// The forker, which holds its child's number, the child, and the line of the fork.
fn fork(
    alloc: Global,
    setting: &CodeSetting,
    at: AtFork<Whole>,
    child: u32,
) -> Result<Came, AllocError>
    requires stands { (d : State ℕ) × (args : List (Word ℕ))
        × StandsAtFork (run_under setting.now) at d args }
    ensures { (c d : State ℕ) (args : List (Word ℕ))
        → leg (run_under setting.now) c ≡ forks d at.block args
        → StandsAtFork (run_under setting.now) at d args
        → IfOk result (λ k. HasCome (run_under setting.now) child c k) }
{
    let line = at.line();
    match at.fork(alloc, setting) {
        Ok((parent, kid, _)) => Ok(Came::Forked(parent.told(child), kid, line)),
        Err(broken) => {
            broken.give_up();
            Err(AllocError)
        },
    }
}

/// Does the instructions of a leg. A child that it forks gets this number.
pub fn advance(
    alloc: Global,
    setting: &CodeSetting,
    runner: Runner<Whole>,
    child: u32,
    spares: &mut Spares,
) -> Result<Came, AllocError>
    requires stands { (c : State ℕ) × Runs (run_under setting.now) runner c }
    ensures { (c : State ℕ) → Runs (run_under setting.now) runner c
        → IfOk result (λ k. HasCome (run_under setting.now) child c k) }
{
    match run_leg(alloc, runner, setting, spares) {
        Ok(Event::Fork(at)) => fork(alloc, setting, at, child),
        Ok(Event::Join(at)) => Ok(Came::Standing(at)),
        Ok(Event::End(stopped)) => Ok(Came::Ended(retire(stopped, spares).0)),
        Ok(Event::Trap(stopped)) => Ok(Came::Ended(retire(stopped, spares).0)),
        Err(broken) => {
            broken.give_up();
            Err(AllocError)
        },
    }
}

/// As `advance`, with notes of what the leg reads.
pub fn advance_noting(
    alloc: Global,
    setting: &CodeSetting,
    runner: Runner<Whole>,
    child: u32,
    spares: &mut Spares,
    noted: &mut ReadMarks,
) -> Result<Came, AllocError>
    requires stands { (c : State ℕ) × Runs (run_under setting.now) runner c }
    requires locations { locations noted.old.locations ≡ count setting.now.code.vars }
    requires few { length setting.now.inputs.items < 2 ^ 32 }
    requires positions { locations noted.old.inputs ≡ length setting.now.inputs.items }
    ensures come { (c : State ℕ) → Runs (run_under setting.now) runner c
        → IfOk result (λ k. HasCome (run_under setting.now) child c k) }
    ensures read { (c : State ℕ) → Runs (run_under setting.now) runner c
        → IfOk result (λ _. HasMarked noted.old noted.new
        (marks_of (leg_reads (run_under setting.now) c))) }
{
    match run_leg_noting(alloc, runner, setting, spares, noted) {
        Ok(Event::Fork(at)) => fork(alloc, setting, at, child),
        Ok(Event::Join(at)) => Ok(Came::Standing(at)),
        Ok(Event::End(stopped)) => Ok(Came::Ended(retire(stopped, spares).0)),
        Ok(Event::Trap(stopped)) => Ok(Came::Ended(retire(stopped, spares).0)),
        Err(broken) => {
            broken.give_up();
            Err(AllocError)
        },
    }
}

/// The joiner of a revision that has trapped.
fn meet_trapped(at: AtJoin<Whole>, trap: CodeTrap, spares: &mut Spares) -> WorldSlot
    ensures { (g : CodeRun) (c : State ℕ) (j : End ℕ) (v : EndValue) → StandsAtJoin g at c
        → IsEnd g j v → v.finish ≡ finish.Trapped trap
        → HasMet g result (meets g at c j) }
{
    if at.is_try() {
        WorldSlot::Running(at.dropped())
    } else {
        WorldSlot::Ended(retire(at.trapped(trap), spares).0)
    }
}

/// The joiner of a revision that is done.
fn meet_done<M: MergeBy>(
    alloc: Global,
    at: AtJoin<Whole>,
    end: EndValue,
    merges: &mut M,
    spares: &mut Spares,
) -> Result<WorldSlot, AllocError>
    requires meeting { (g : CodeRun) × (c : State ℕ) × (j : End ℕ) × IsMeeting g at end c j
        × (M.size merges.old ≡ count g.code.vars) }
    requires done { end.finish ≡ finish.Done }
    ensures met { (g : CodeRun) (c : State ℕ) (j : End ℕ) → IsMeeting g at end c j
        → AreMergesOf g (M.merges merges.old)
        → IfOk result (λ s. HasMet g s (meets g at c j)) }
    ensures size { M.size merges.new ≡ M.size merges.old }
    ensures same { M.merges merges.new ≡ M.merges merges.old }
{
    match settle(alloc, at.claim(end), merges) {
        Ok(Settled::Run(runner)) => Ok(WorldSlot::Running(runner)),
        Ok(Settled::Trap(stopped)) => Ok(WorldSlot::Ended(retire(stopped, spares).0)),
        Err(broken) => {
            broken.give_up();
            Err(AllocError)
        },
    }
}

/// The joiner behind its join of a revision that left this end: it goes on, or has trapped.
pub fn meet<M: MergeBy>(
    alloc: Global,
    at: AtJoin<Whole>,
    end: EndValue,
    merges: &mut M,
    spares: &mut Spares,
) -> Result<WorldSlot, AllocError>
    requires { (g : CodeRun) × (c : State ℕ) × (j : End ℕ) × IsMeeting g at end c j
        × (M.size merges.old ≡ count g.code.vars) }
    ensures met { (g : CodeRun) (c : State ℕ) (j : End ℕ) → IsMeeting g at end c j
        → AreMergesOf g (M.merges merges.old)
        → IfOk result (λ s. HasMet g s (meets g at c j)) }
    ensures size { M.size merges.new ≡ M.size merges.old }
    ensures same { M.merges merges.new ≡ M.merges merges.old }
{
    match end.finish {
        Finish::Done => meet_done(alloc, at, end, merges, spares),
        Finish::Trapped(trap) => Ok(meet_trapped(at, trap, spares)),
    }
}
