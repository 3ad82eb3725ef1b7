//! A shape that is kept.

ghost use Rattle.std.specs.Prelude.{◌≡◌};
ghost use Rattle.code_verifier.specs.Trie.{above, new_node, with_above};

use rev_num::ValueKind;

/// A shape: the kind on top, and the number of the shape below it. `above_..` are the numbers of
/// the shapes with one kind more, and 0 where there is none so far.
#[derive(Clone, Copy)]
pub(crate) struct Node {
    pub(crate) kind: ValueKind,
    pub(crate) below: usize,
    pub(crate) depth: usize,
    pub(crate) above_int: usize,
    pub(crate) above_bool: usize,
    pub(crate) above_rev: usize,
}

impl Node {
    /// With nothing above it.
    pub(crate) fn new(kind: ValueKind, below: usize, depth: usize) -> Node
        ensures { result ≡ new_node kind below depth }
    {
        Node {
            kind,
            below,
            depth,
            above_int: 0,
            above_bool: 0,
            above_rev: 0,
        }
    }

    pub(crate) fn above(&self, kind: ValueKind) -> usize
        ensures { result ≡ above kind self.now }
    {
        match kind {
            ValueKind::Int => self.above_int,
            ValueKind::Bool => self.above_bool,
            ValueKind::Rev => self.above_rev,
        }
    }

    pub(crate) fn with_above(self, kind: ValueKind, to: usize) -> Node
        ensures { result ≡ with_above kind to self }
    {
        let mut node = self;
        match kind {
            ValueKind::Int => node.above_int = to,
            ValueKind::Bool => node.above_bool = to,
            ValueKind::Rev => node.above_rev = to,
        }
        node
    }
}
