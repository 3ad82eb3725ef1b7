//! The tree as a machine of revisions.
ghost use Rattle.std.specs.Prelude.{◌≡◌, []};
ghost use Rattle.thread_cases.specs.Tree.{is_end, joined};
ghost use Rattle.thread_cases.specs.Machine.{tree};

use crate::going::{Done, Going, claimed, stopped};
use crate::node::{Node, Way};
use hub_core::Revision;

/// The machine.
pub struct Tree;

impl Revision for Tree {
    type State = Node;

    type Runner = Going;

    type AtJoin = Node;

    type End = Node;

    type Claimed = Going;

    type Stopped = Done;

    ghost machine = { tree };

    ghost ends = { is_end };

    ghost claimed = { λ c at end. c.node ≡ joined at end };

    ghost stopped = { λ s at end. s.node ≡ joined at end };

    ghost by_join = { λ e. e.by_join };

    ghost claimed_group = { λ c. [] };

    ghost stopped_group = { λ s. [] };

    fn on(at: &Node) -> u32 {
        at.joinee()
    }

    fn claim(at: Node, end: Node) -> Going {
        claimed(at, end)
    }

    fn trapped(at: Node, end: Node) -> Done {
        stopped(at, end)
    }

    fn is_trapped(end: &Node) -> bool {
        end.trapped
    }

    fn is_try(at: &Node) -> bool {
        at.way == Way::Tries
    }

    fn is_by_join(end: &Node) -> bool {
        end.by_join
    }
}
