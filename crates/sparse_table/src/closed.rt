//! A table at its end.
ghost use Rattle.std.specs.Prelude.{◌≡◌, ℕ, ◌+◌, ◌*◌, ◌%◌, ◌^◌, ◌<◌, ◌≤◌};
ghost use Rattle.std.specs.Prelude.{length, slice_index, false};
ghost use Rattle.sparse_table.specs.Words.{blank};
ghost use Rattle.sparse_table.specs.Parts.{total_of};
ghost use Rattle.sparse_table.specs.Ended.{Ending};

use crate::span::{Right, Span};
use std::alloc::Global;
use std::mem::ManuallyDrop;

/// A table that no thread shares any more. It is never let go of: `free` takes it.
pub struct Closed {
    pub(crate) span: Span,
    pub(crate) right: Right<Global>,
    pub(crate) total: usize,
    pub(crate) len: usize,
    pub(crate) width: usize,
    pub(crate) shift: u32,
    pub(crate) alloc: Global,
    ghost owed: { (right.heap ≡ alloc) × (right.at ≡ span.ptr) × (right.len ≡ total)
        × (length span.items ≡ total) },
    ghost sized: { (0 < len) × (len ≤ 2 ^ 40) × (len % width ≡ 0) × (1 < width) × (2 ^ shift ≤ width)
        × (shift < 64) × (total ≡ total_of len shift) },
    ghost ended: { Ending len width shift total span.items },
}

// Whether a part is being made.
fn is_making(span: &mut Span, len: usize, flags: usize) -> bool
    requires long { (len + 2 * flags ≤ length span.old.items) × (len + 2 * flags < 2 ^ 64) }
    requires numbers { (j : ℕ) → len ≤ j → slice_index span.old.items j < blank }
    ensures same { span.new ≡ span.old }
    ensures none { result ≡ false → (k : ℕ) → k < flags
        → ¬ (slice_index span.old.items (len + 2 * k + 1) ≡ 2) }
{
    for k in 0..flags {
        if span.word(len + 2 * k + 1) == 2 {
            return true;
        }
    }
    false
}

impl Closed {
    ghost use Rattle.sparse_table.specs.Parts.{IsPart};
    ghost use Rattle.sparse_table.specs.Last.{words_of};

    /// The first word of a part.
    pub fn head(&mut self, part: usize) -> u64
        requires { IsPart self.old.len self.old.width part }
        ensures { (self.new ≡ self.old) × (result ≡ slice_index (words_of self.old) part) }
    {
        self.span.word(self.len + 2 * (part >> self.shift))
    }

    /// Gives the memory back. Where a seat was let go of while it made a part, the memory is left. No
    /// call here does that, but the rule does not know it.
    pub fn free(self) {
        let Closed {
            mut span,
            right,
            total,
            len,
            width: _,
            shift,
            alloc,
        } = self;
        if is_making(&mut span, len, (len >> shift) + 1) {
            let _span = unsafe { ManuallyDrop::new_unchecked(span) };
            let _right = unsafe { ManuallyDrop::new_unchecked(right) };
            return;
        }
        span.release(right, &alloc, total);
    }
}
