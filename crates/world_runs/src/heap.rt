//! Numbers in a heap.

ghost use Rattle.std.specs.BinaryHeap.{IsHeap, IsHeap-prop, heap_items};
ghost use Rattle.std.specs.Ordering.{nat_cmp};

use std::collections::BinaryHeap;

/// A heap of numbers. Each stands in it by what is left above it, so that the least comes first.
#[derive(Drop)]
pub struct LeastHeap {
    pub(crate) above: BinaryHeap<u32>,
    ghost order: { IsHeap nat_cmp (heap_items above) } by { IsHeap-prop nat_cmp (heap_items above) },
}
