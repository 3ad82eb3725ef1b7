//! Runs code whose children come to their end in one leg, and whose joiners join the latest of
//! them.

ghost use Rattle.std.specs.Prelude.{◌≡◌, ◌<◌, ◌+◌, ◌^◌, ℕ, IfOk, IfSome};
ghost use Rattle.rev_code.specs.State.{State};
ghost use Rattle.version_map.specs.declared.end.Finish.TheVariants as finish;
ghost use Rattle.block_run.specs.Area.{count};
ghost use Rattle.fun_run.specs.Merging.{AreMergesOf};
ghost use Rattle.code_machine.specs.Local.{End};
ghost use Rattle.rev_vm.specs.Meaning.{IsEnd};
ghost use Rattle.rev_vm.specs.Starts.{run_under};
ghost use Rattle.rev_vm.specs.Values.{StandsFor, StandsAtFork, StandsAtJoin, joiner_fuel};
ghost use Rattle.rev_code.specs.Words.{Word};
ghost use Rattle.std.specs.Prelude.{List};
ghost use Rattle.machine_cases.specs.Driving.{Goes, IsSettled};

use leg_run::CodeSetting;
use rev_vm::{
    AtFork, AtJoin, Broken, Event, Runner, Settled, Spares, Stopped, retire, run_leg, settle,
};
use std::alloc::{AllocError, Global};
use version_map::{EndValue, Finish, MergeBy, Snapshot};

/// What a revision comes to in a leg.
pub enum Turn<P: Snapshot> {
    /// It goes on; what its latest child left, if it has not joined it.
    Goes(Runner<P>, Option<EndValue>),
    Ends(Stopped<P>),
}

fn let_go<P: Snapshot>(broken: Broken<P>) -> AllocError
where
    P::Spent: Drop,
{
    broken.give_up();
    AllocError
}

/// What a revision leaves that comes to its end in one leg.
fn leaf_end<P: Snapshot>(
    alloc: Global,
    setting: &CodeSetting,
    runner: Runner<P>,
    spares: &mut Spares,
) -> Result<Option<EndValue>, AllocError>
where
    P::Spent: Drop,
    requires stands { (c : State ℕ) × StandsFor (run_under setting.now) runner c }
    ensures { IfOk result (λ o. IfSome o (λ v. (j : End ℕ) × IsEnd (run_under setting.now) j v)) }
{
    match run_leg(alloc, runner, setting, spares) {
        Err(broken) => Err(let_go(broken)),
        Ok(Event::End(stopped)) => {
            let (end, _) = retire(stopped, spares);
            Ok(Some(end))
        },
        Ok(Event::Trap(stopped)) => {
            let (end, _) = retire(stopped, spares);
            Ok(Some(end))
        },
        Ok(Event::Fork(at)) => {
            at.give_up();
            Ok(None)
        },
        Ok(Event::Join(at)) => {
            at.give_up();
            Ok(None)
        },
    }
}

/// The forker, told this number, and what its child left.
fn fork_leaf<P: Snapshot>(
    alloc: Global,
    setting: &CodeSetting,
    at: AtFork<P>,
    number: u32,
    spares: &mut Spares,
) -> Result<Turn<P>, AllocError>
where
    P::Spent: Drop,
    requires stands { (c : State ℕ) × (args : List (Word ℕ))
        × StandsAtFork (run_under setting.now) at c args }
    ensures { IfOk result (λ t. Goes (run_under setting.now) t) }
{
    match at.fork(alloc, setting) {
        Err(broken) => {
            broken.give_up();
            Err(AllocError)
        },
        Ok((parent, child, _)) => match leaf_end(alloc, setting, child, spares) {
            Ok(left) => Ok(Turn::Goes(parent.told(number), left)),
            Err(_) => {
                parent.give_up();
                Err(AllocError)
            },
        },
    }
}

/// The joiner with what a revision left that is done.
fn meet_done<P: Snapshot, M: MergeBy>(
    alloc: Global,
    setting: &CodeSetting,
    merges: &mut M,
    at: AtJoin<P>,
    end: EndValue,
) -> Result<Settled<P>, AllocError>
where
    P::Spent: Drop,
    requires stands { (c : State ℕ) × StandsAtJoin (run_under setting.now) at c }
    requires ended { (j : End ℕ) × IsEnd (run_under setting.now) j end }
    requires done { end.finish ≡ finish.Done }
    requires fuel { joiner_fuel at + end.fuel < 2 ^ 64 }
    requires size { M.size merges.old ≡ count setting.now.code.vars }
    requires merges { AreMergesOf (run_under setting.now) (M.merges merges.old) }
    ensures settled { IfOk result (λ s. IsSettled (run_under setting.now) s) }
    ensures merges_size { M.size merges.new ≡ M.size merges.old }
    ensures merges_same { M.merges merges.new ≡ M.merges merges.old }
{
    match settle(alloc, at.claim(end), merges) {
        Ok(settled) => Ok(settled),
        Err(broken) => Err(let_go(broken)),
    }
}

/// The joiner behind its join of a revision that left this.
fn meet<P: Snapshot, M: MergeBy>(
    alloc: Global,
    setting: &CodeSetting,
    merges: &mut M,
    at: AtJoin<P>,
    end: EndValue,
) -> Result<Settled<P>, AllocError>
where
    P::Spent: Drop,
    requires stands { (c : State ℕ) × StandsAtJoin (run_under setting.now) at c }
    requires ended { (j : End ℕ) × IsEnd (run_under setting.now) j end }
    requires size { M.size merges.old ≡ count setting.now.code.vars }
    requires merges { AreMergesOf (run_under setting.now) (M.merges merges.old) }
    ensures settled { IfOk result (λ s. IsSettled (run_under setting.now) s) }
    ensures merges_size { M.size merges.new ≡ M.size merges.old }
    ensures merges_same { M.merges merges.new ≡ M.merges merges.old }
{
    match end.finish {
        Finish::Trapped(trap) => {
            if at.is_try() {
                Ok(Settled::Run(at.dropped()))
            } else {
                Ok(Settled::Trap(at.trapped(trap)))
            }
        },
        Finish::Done => {
            if end.fuel <= u64::MAX - at.fuel() {
                meet_done(alloc, setting, merges, at, end)
            } else {
                at.give_up();
                Err(AllocError)
            }
        },
    }
}

fn turn_of<P: Snapshot>(settled: Settled<P>) -> Turn<P>
    ensures { (setting : CodeSetting) → IsSettled (run_under setting) settled
        → Goes (run_under setting) result }
{
    match settled {
        Settled::Run(runner) => Turn::Goes(runner, None),
        Settled::Trap(stopped) => Turn::Ends(stopped),
    }
}

/// Goes on to the next event and behind it. Its next child has this number.
fn go_on<P: Snapshot, M: MergeBy>(
    alloc: Global,
    setting: &CodeSetting,
    merges: &mut M,
    runner: Runner<P>,
    left: Option<EndValue>,
    number: u32,
    spares: &mut Spares,
) -> Result<Turn<P>, AllocError>
where
    P::Spent: Drop,
    requires stands { (c : State ℕ) × StandsFor (run_under setting.now) runner c }
    requires left { IfSome left (λ v. (j : End ℕ) × IsEnd (run_under setting.now) j v) }
    requires size { M.size merges.old ≡ count setting.now.code.vars }
    requires merges { AreMergesOf (run_under setting.now) (M.merges merges.old) }
    ensures turn { IfOk result (λ t. Goes (run_under setting.now) t) }
    ensures merges_size { M.size merges.new ≡ M.size merges.old }
    ensures merges_same { M.merges merges.new ≡ M.merges merges.old }
{
    match run_leg(alloc, runner, setting, spares) {
        Err(broken) => Err(let_go(broken)),
        Ok(Event::End(stopped)) => Ok(Turn::Ends(stopped)),
        Ok(Event::Trap(stopped)) => Ok(Turn::Ends(stopped)),
        Ok(Event::Fork(at)) => fork_leaf(alloc, setting, at, number, spares),
        Ok(Event::Join(at)) => match left {
            Some(end) => {
                let settled = meet(alloc, setting, merges, at, end)?;
                Ok(turn_of(settled))
            },
            None => {
                at.give_up();
                Err(AllocError)
            },
        },
    }
}

/// What a revision leaves that ends in so many legs, and what its snapshot leaves.
pub fn run_to_end<P: Snapshot, M: MergeBy>(
    alloc: Global,
    setting: &CodeSetting,
    merges: &mut M,
    runner: Runner<P>,
    legs: u32,
) -> Result<Option<(EndValue, P::Spent)>, AllocError>
where
    P::Spent: Drop,
    requires stands { (c : State ℕ) × StandsFor (run_under setting.now) runner c }
    requires size { M.size merges.old ≡ count setting.now.code.vars }
    requires merges { AreMergesOf (run_under setting.now) (M.merges merges.old) }
    ensures merges_size { M.size merges.new ≡ M.size merges.old }
    ensures merges_same { M.merges merges.new ≡ M.merges merges.old }
{
    let mut spares = Spares::new(alloc);
    let mut now = Turn::Goes(runner, None);
    for number in 0..legs {
        match now {
            Turn::Goes(runner, left) => {
                now = go_on(
                    alloc,
                    setting,
                    merges,
                    runner,
                    left,
                    number.saturating_add(1),
                    &mut spares,
                )?;
            },
            Turn::Ends(stopped) => return Ok(Some(retire(stopped, &mut spares))),
        }
    }
    match now {
        Turn::Goes(runner, _) => {
            runner.give_up();
            Ok(None)
        },
        Turn::Ends(stopped) => Ok(Some(retire(stopped, &mut spares))),
    }
}
