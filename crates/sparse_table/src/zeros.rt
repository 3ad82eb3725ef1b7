//! Words that become 0.
ghost use Rattle.std.specs.Prelude.{◌≡◌, ℕ, ◌+◌, ◌<◌, ◌≤◌, ◌^◌};
ghost use Rattle.std.specs.Prelude.{length, replicate, slice_index};
ghost use Rattle.sparse_table.specs.Words.{blank, laid};

use crate::span::Span;

// Writes 0 to so many words from this one on, of which none is away.
pub(crate) fn write_zeros(span: &mut Span, from: usize, count: usize)
    requires long { (from + count ≤ length span.old.items) × (from + count < 2 ^ 64) }
    requires here { (j : ℕ) → from ≤ j → j < from + count → slice_index span.old.items j ≤ blank }
    ensures { (span.new.ptr ≡ span.old.ptr)
        × (span.new.items ≡ laid span.old.items from (replicate count 0)) }
{
    for k in 0..count {
        span.put(from + k, 0);
    }
}
