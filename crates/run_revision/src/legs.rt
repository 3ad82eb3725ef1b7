//! The legs of revisions of code, between the calls of a hub.
ghost use Rattle.std.specs.Prelude.{◌≡◌, ◌≢◌, IfOk, IfSome};
ghost use Rattle.version_map.specs.declared.end.Finish.TheVariants.{Done, Trapped};
ghost use Rattle.hub_workers.specs.Legs.{IsSameHand};
ghost use Rattle.rev_vm.specs.Meaning.{IsEnd};
ghost use Rattle.rev_vm.specs.Starts.{run_under};
ghost use Rattle.rev_vm.specs.States.{end_for};
ghost use Rattle.run_revision.specs.Forking as forking;
ghost use Rattle.run_revision.specs.Hands as hands;

use crate::forking::{CodeFork, CodeParent};
use crate::hand::{CodeHand, Keeper};
use crate::joiner::{CodeJoiner, Ended, JoinedBy};
use crate::left::CodeEnd;
use crate::machine::CodeRevisions;
use crate::runner::CodeRunner;
use hub_workers::{LegEvent, Legs, SettledLeg};
use leg_run::CodeSetting;
use rev_vm::{Event as VmEvent, Settled as VmSettled, Stopped, retire, run_leg, settle};
use std::alloc::{AllocError, Global};
use version_map::{CodeTrap, EndValue, Finish, MergeBy, Snapshot};

/// The trap with which a revision ended.
fn trap_of(value: &EndValue) -> CodeTrap
    requires { value.now.finish ≢ Done }
    ensures { value.now.finish ≡ Trapped result }
{
    match value.finish {
        Finish::Trapped(trap) => trap,
        Finish::Done => unreachable!(),
    }
}

/// What a revision left, in a box. Where memory is wanting for the box, it is let go of.
fn in_box<'a>(
    alloc: Global,
    setting: &'a CodeSetting,
    value: EndValue,
) -> Result<CodeEnd<'a>, AllocError>
    requires { IsEnd (run_under setting.now) (end_for (run_under setting.now) value) value }
    ensures run { IfOk result (λ e. e.run ≡ run_under setting.entry.now) }
    ensures left { IfOk result (λ e. e.left ≡ end_for (run_under setting.entry.now) value) }
{
    let value = Box::new(alloc, value)?;
    Ok(CodeEnd { setting, value })
}

/// What a revision left, whose snapshot is given back, also where memory is wanting.
fn leave<'a, P: Snapshot, M: MergeBy, K: Keeper<P>>(
    hand: &mut CodeHand<'a, P, M, K>,
    setting: &'a CodeSetting,
    stopped: Stopped<P>,
) -> Result<CodeEnd<'a>, AllocError>
    requires end { IsEnd (run_under setting.now)
        (end_for (run_under setting.now) stopped.end) stopped.end }
    requires group { P.group stopped.snapshot ≡ hand.old.group }
    ensures run { IfOk result (λ e. e.run ≡ run_under setting.entry.now) }
    ensures left { IfOk result
        (λ e. e.left ≡ end_for (run_under setting.entry.now) stopped.end) }
    ensures hand { IsSameHand hands.begins (λ h. h.group) hand.old hand.new }
{
    let (value, spent) = retire(stopped, &mut hand.spares);
    hand.keeper.keep(spent);
    in_box(hand.alloc, setting, value)
}

/// The same in a box that is there already, so that no memory can be wanting.
fn leave_in<'a, P: Snapshot, M: MergeBy, K: Keeper<P>>(
    hand: &mut CodeHand<'a, P, M, K>,
    setting: &'a CodeSetting,
    stopped: Stopped<P>,
    mut place: Box<EndValue>,
) -> CodeEnd<'a>
    requires end { IsEnd (run_under setting.now)
        (end_for (run_under setting.now) stopped.end) stopped.end }
    requires group { P.group stopped.snapshot ≡ hand.old.group }
    ensures run { result.run ≡ run_under setting.entry.now }
    ensures left { result.left ≡ end_for (run_under setting.entry.now) stopped.end }
    ensures hand { IsSameHand hands.begins (λ h. h.group) hand.old hand.new }
{
    let (value, spent) = retire(stopped, &mut hand.spares);
    hand.keeper.keep(spent);
    *place = value;
    CodeEnd {
        setting,
        value: place,
    }
}

/// Keeps what is left of the snapshot of a child, where it had one.
fn keep_child<P: Snapshot, K: Keeper<P>>(keeper: &mut K, child: Option<P::Spent>)
    requires { IfSome child (λ s. P.spent_group s ≡ K.group keeper.old) }
    ensures { K.group keeper.new ≡ K.group keeper.old }
{
    match child {
        Some(spent) => keeper.keep(spent),
        None => {},
    }
}

impl<'a, P: Snapshot, M: MergeBy, K: Keeper<P>> Legs for CodeRevisions<'a, P, M, K> {
    type Hand = CodeHand<'a, P, M, K>;

    type AtFork = CodeFork<'a, P>;

    type Parent = CodeParent<'a, P>;

    ghost begins = { hands.begins };

    ghost hand_group = { λ h. h.group };

    ghost fork_group = { λ f. f.group };

    ghost parent_group = { λ p. p.group };

    ghost forker = { forking.forker };

    ghost child = { forking.child };

    ghost told_as = { forking.told_as };

    fn run_leg(
        hand: &mut CodeHand<'a, P, M, K>,
        runner: CodeRunner<'a, P>,
    ) -> Result<LegEvent<CodeFork<'a, P>, CodeJoiner<'a, P>, CodeEnd<'a>>, AllocError> {
        let CodeRunner { setting, runner } = runner;
        match run_leg(hand.alloc, runner, setting, &mut hand.spares) {
            Ok(VmEvent::Fork(at)) => Ok(LegEvent::Fork(CodeFork { setting, at })),
            Ok(VmEvent::Join(at)) => Ok(LegEvent::Join(CodeJoiner { setting, at })),
            Ok(VmEvent::End(stopped)) => Ok(LegEvent::End(leave(hand, setting, stopped)?)),
            Ok(VmEvent::Trap(stopped)) => Ok(LegEvent::End(leave(hand, setting, stopped)?)),
            Err(broken) => {
                hand.keeper.keep(broken.give_up());
                Err(AllocError)
            },
        }
    }

    fn split(
        hand: &mut CodeHand<'a, P, M, K>,
        at: CodeFork<'a, P>,
    ) -> Result<(CodeParent<'a, P>, CodeRunner<'a, P>), AllocError> {
        let CodeFork { setting, at } = at;
        match at.fork(hand.alloc, setting) {
            Ok((parent, runner, how)) => {
                hand.keeper.note(how);
                Ok((
                    CodeParent { setting, parent },
                    CodeRunner { setting, runner },
                ))
            },
            Err(broken) => {
                let (forker, child) = broken.give_up();
                hand.keeper.keep(forker);
                keep_child(&mut hand.keeper, child);
                Err(AllocError)
            },
        }
    }

    fn told(parent: CodeParent<'a, P>, number: u32) -> CodeRunner<'a, P> {
        let CodeParent { setting, parent } = parent;
        CodeRunner {
            setting,
            runner: parent.told(number),
        }
    }

    fn settle(
        hand: &mut CodeHand<'a, P, M, K>,
        claimed: JoinedBy<'a, P>,
    ) -> Result<SettledLeg<CodeRunner<'a, P>, CodeEnd<'a>>, AllocError> {
        let JoinedBy { at, end } = claimed;
        let CodeJoiner { setting, at } = at;
        let CodeEnd { setting: _, value } = end;
        let left = Box::into_inner(value);
        match settle(hand.alloc, at.claim(left), &mut hand.merges) {
            Ok(VmSettled::Run(runner)) => Ok(SettledLeg::Run(CodeRunner { setting, runner })),
            Ok(VmSettled::Trap(stopped)) => Ok(SettledLeg::Trap(leave(hand, setting, stopped)?)),
            Err(broken) => {
                hand.keeper.keep(broken.give_up());
                Err(AllocError)
            },
        }
    }

    fn retire(hand: &mut CodeHand<'a, P, M, K>, stopped: Ended<'a, P>) -> CodeEnd<'a> {
        let Ended { at, end } = stopped;
        let CodeJoiner { setting, at } = at;
        let CodeEnd { setting: _, value } = end;
        let trap = trap_of(&*value);
        leave_in(hand, setting, at.trapped(trap), value)
    }

    fn dropped(at: CodeJoiner<'a, P>) -> CodeRunner<'a, P> {
        let CodeJoiner { setting, at } = at;
        CodeRunner {
            setting,
            runner: at.dropped(),
        }
    }

    fn give_up_runner(hand: &mut CodeHand<'a, P, M, K>, runner: CodeRunner<'a, P>) {
        hand.keeper.keep(runner.give_up());
    }

    fn give_up_joiner(hand: &mut CodeHand<'a, P, M, K>, at: CodeJoiner<'a, P>) {
        let CodeJoiner { setting: _, at } = at;
        hand.keeper.keep(at.give_up());
    }

    fn give_up_parent(hand: &mut CodeHand<'a, P, M, K>, parent: CodeParent<'a, P>) {
        let CodeParent { setting: _, parent } = parent;
        hand.keeper.keep(parent.give_up());
    }
}
