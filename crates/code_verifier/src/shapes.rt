//! Shapes of stacks, each of which is kept once.

ghost use Rattle.std.specs.Prelude.{◌≡◌, ◌<◌, ◌∷◌, ◌^◌, length, IfOk, []};
ghost use Rattle.code_rules.specs.Shapes.{same_shape};
ghost use Rattle.code_verifier.specs.ShapesByNumber.{IsPushed, shape_at, first, rest};

use crate::node::Node;
use rev_num::ValueKind;
use std::alloc::{AllocError, Global};
use std::marker::Model;

/// All shapes that were met, by number; 0 is the empty one. A shape and the shape with one kind
/// more share what is below: each has one node. Two shapes are equal exactly where their numbers
/// are.
#[derive(Drop)]
pub(crate) struct Shapes {
    nodes: Vec<Node>,
}

impl Model for Shapes {
    ghost use Rattle.std.specs.Prelude.{List};
    ghost use Rattle.rev_num.specs.declared.value.ValueKind.{ValueKind};

    ghost Value = { List (List ValueKind) };

    ghost use Rattle.code_verifier.specs.Trie.{shapes_of, IsTrie};

    ghost view = { λ a. shapes_of a.nodes.items };

    ghost invariant = { λ a. IsTrie a.nodes.items };
}

impl Shapes {
    /// The empty shape alone.
    pub(crate) fn new(alloc: Global) -> Result<Shapes, AllocError>
        ensures { IfOk result (λ s. s ≡ [] ∷ []) }
    {
        let mut nodes = Vec::new(alloc);
        nodes.push(Node::new(ValueKind::Int, 0, 0))?;
        Ok(Shapes { nodes })
    }

    /// How many kinds the shape has.
    pub(crate) fn depth(&self, id: usize) -> usize
        requires { id < length self.now }
        ensures depth { result ≡ length (shape_at self.now id) }
        ensures small { result < 2 ^ 63 }
    {
        self.nodes[id].depth
    }

    /// The kind on top, if there is one.
    pub(crate) fn first(&self, id: usize) -> Option<ValueKind>
        requires { id < length self.now }
        ensures { result ≡ first (shape_at self.now id) }
    {
        let node = self.nodes[id];
        if node.depth == 0 {
            None
        } else {
            Some(node.kind)
        }
    }

    /// The number of the shape without the kind on top; of the empty shape, its own.
    pub(crate) fn rest(&self, id: usize) -> usize
        requires { id < length self.now }
        ensures within { result < length self.now }
        ensures shape { shape_at self.now result ≡ rest (shape_at self.now id) }
    {
        self.nodes[id].below
    }

    /// Whether two shapes are equal.
    pub(crate) fn is_same(&self, a: usize, b: usize) -> bool
        requires first { a < length self.now }
        requires second { b < length self.now }
        ensures { result ≡ same_shape (shape_at self.now a) (shape_at self.now b) }
    {
        let _nodes = &self.nodes;
        a == b
    }

    /// The number of the shape with one kind more.
    pub(crate) fn push(&mut self, id: usize, kind: ValueKind) -> Result<usize, AllocError>
        requires { id < length self.old }
        ensures { IfOk result (λ to. IsPushed self.old id kind self.new to) }
    {
        let node = self.nodes[id];
        let known = node.above(kind);
        if known != 0 {
            return Ok(known);
        }
        let to = self.nodes.len();
        self.nodes.push(Node::new(kind, id, node.depth + 1))?;
        self.nodes[id] = node.with_above(kind, to);
        Ok(to)
    }
}
