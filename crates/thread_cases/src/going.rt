//! Revisions that go on, and those that have ended.
ghost use Rattle.std.specs.Prelude.{◌≡◌, true, false};
ghost use Rattle.thread_cases.specs.Tree.{after_fork, child_of, goes_on, is_early, joined, outlived};
ghost use Rattle.thread_cases.specs.Tree.{outlives, root};

use crate::node::{Node, Way};

/// A revision that has not ended.
#[derive(Clone, Copy)]
pub struct Going {
    pub node: Node,
    pub ghost goes: { goes_on node.stage ≡ true },
}

/// A revision that is about to fork.
#[derive(Clone, Copy)]
pub struct Forking {
    pub node: Node,
    pub ghost early: { is_early node.stage ≡ true },
}

/// A revision that its join has stopped.
#[derive(Clone, Copy)]
pub struct Done {
    pub node: Node,
    pub ghost over: { goes_on node.stage ≡ false },
    pub ghost by: { node.by_join ≡ true },
}

impl Going {
    /// The first revision of a tree.
    pub fn root(way: Way, depth: u32) -> Going
        ensures { result.node ≡ root way depth }
    {
        Going {
            node: Node::root(way, depth),
        }
    }
}

impl Forking {
    /// What it forks.
    pub fn child(self) -> Going
        ensures { result.node ≡ child_of self.node }
    {
        Going {
            node: self.node.child(),
        }
    }

    /// Once it knows its child's number.
    pub fn told(self, number: u32) -> Going
        ensures { result.node ≡ after_fork self.node number }
    {
        Going {
            node: self.node.told(number),
        }
    }
}

/// A joiner that outlives the trap of its joinee.
pub fn outlived(at: Node) -> Going
    ensures { result.node ≡ outlived at }
{
    Going {
        node: at.outlived(),
    }
}

/// A joiner that has taken an end in.
pub fn claimed(at: Node, end: Node) -> Going
    requires { end.trapped ≡ false }
    ensures { result.node ≡ joined at end }
{
    Going {
        node: at.joined(end),
    }
}

/// A joiner that its joinee's trap has stopped.
pub fn stopped(at: Node, end: Node) -> Done
    requires { (end.trapped ≡ true) × (outlives at.way ≡ false) }
    ensures { result.node ≡ joined at end }
{
    Done {
        node: at.joined(end),
    }
}
