//! How the revisions of a tree run.
ghost use Rattle.std.specs.Prelude.{[]};
ghost use Rattle.hub_workers.specs.Legs.{Comes};
ghost use Rattle.thread_cases.specs.Machine.{tree};
ghost use Rattle.thread_cases.specs.Tree.{after_fork, child_of, is_end};

use crate::going::{Done, Forking, Going, outlived};
use crate::machine::Tree;
use crate::node::{Node, Stage};
use hub_workers::{LegEvent, Legs, SettledLeg};
use std::alloc::AllocError;

/// A thread has room for so many legs. At the next one memory is wanting.
#[derive(Clone, Copy, Drop)]
pub struct Room {
    pub legs: u32,
}

// The next event of a revision.
fn next_event(runner: Going) -> LegEvent<Forking, Node, Node>
    ensures { Comes tree is_end (λ e. e.by_join) (λ f. after_fork f.node)
        (λ f. child_of f.node) runner.node result }
{
    let node = runner.node;
    match node.stage {
        Stage::Begins | Stage::Between => {
            if node.depth == 0 {
                LegEvent::End(node.ended())
            } else {
                LegEvent::Fork(Forking { node })
            }
        },
        Stage::Forked => LegEvent::Fork(Forking { node }),
        Stage::JoinsFirst | Stage::JoinsSecond => LegEvent::Join(node),
        Stage::Ends | Stage::Over => LegEvent::End(node.ended()),
    }
}

impl Legs for Tree {
    type Hand = Room;

    type AtFork = Forking;

    type Parent = Forking;

    ghost begins = { λ h l. Unit {0} };

    ghost hand_group = { λ h. [] };

    ghost fork_group = { λ f. [] };

    ghost parent_group = { λ p. [] };

    ghost forker = { λ f. after_fork f.node };

    ghost child = { λ f. child_of f.node };

    ghost told_as = { λ p. after_fork p.node };

    fn run_leg(
        hand: &mut Room,
        runner: Going,
    ) -> Result<LegEvent<Forking, Node, Node>, AllocError> {
        if hand.legs == 0 {
            return Err(AllocError);
        }
        hand.legs -= 1;
        Ok(next_event(runner))
    }

    fn split(_hand: &mut Room, at: Forking) -> Result<(Forking, Going), AllocError> {
        Ok((at, at.child()))
    }

    fn told(parent: Forking, number: u32) -> Going {
        parent.told(number)
    }

    fn settle(_hand: &mut Room, claimed: Going) -> Result<SettledLeg<Going, Node>, AllocError> {
        Ok(SettledLeg::Run(claimed))
    }

    fn retire(_hand: &mut Room, stopped: Done) -> Node {
        stopped.node
    }

    fn dropped(at: Node) -> Going {
        outlived(at)
    }

    fn give_up_runner(_hand: &mut Room, _runner: Going) {}

    fn give_up_joiner(_hand: &mut Room, _at: Node) {}

    fn give_up_parent(_hand: &mut Room, _parent: Forking) {}
}
