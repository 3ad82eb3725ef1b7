//! Words side by side that no thread shares.
ghost use Rattle.std.specs.Prelude.{◌≡◌, ℕ, ◌*◌, ◌<◌, ◌≤◌, ◌^◌, IfOk};
ghost use Rattle.std.specs.Prelude.{List, length, slice_index, slice_set, replicate};
ghost use denote.RawPtr.{Ptr, coded_ptr};
ghost use Rattle.sparse_table.specs.Words.{blank};
ghost use Rattle.sparse_table.specs.Owned.{span, freed_by};

use std::alloc::{AllocError, Allocator};
use std::marker::{Model, PhantomData};
use std::mem::{align_of, size_of};

/// Words side by side, of which each is a number, blank or away. A number is less than 2^64. A blank
/// word has memory that was not written, and the memory of a word that is away is elsewhere.
pub struct Span {
    pub(crate) ptr: *mut u64,
    pub ghost items: { List ℕ },
}

impl Model for Span {
    ghost also_owns = { λ s. span s.ptr s.items };
}

/// The right to give back the memory of so many words, to the allocator `heap`.
pub struct Right<A: Allocator> {
    pub(crate) marker: PhantomData<A>,
    pub ghost heap: { A },
    pub ghost at: { Ptr } by { coded_ptr },
    pub ghost len: { ℕ },
}

impl<A: Allocator> Model for Right<A> {
    ghost also_owns = { λ r. freed_by (A.dealloc_token r.heap) r.at r.len };
}

unsafe impl<A: Allocator + Send> Send for Right<A> {}

unsafe impl<A: Allocator + Send> Sync for Right<A> {}

fn allocate<A: Allocator>(alloc: &A, len: usize) -> Result<(Span, Right<A>), AllocError>
    requires { len * 8 < 2 ^ 63 }
    ensures { IfOk result (λ r. (r.0.items ≡ replicate len blank) × (r.1.heap ≡ alloc.now)
        × (r.1.at ≡ r.0.ptr) × (r.1.len ≡ len)) }
{
    match alloc.allocate(len * size_of::<u64>(), align_of::<u64>()) {
        Ok(room) => {
            let ptr = room as *mut u64;
            let marker = PhantomData;
            Ok((Span { ptr }, Right { marker }))
        },
        Err(error) => Err(error),
    }
}

impl Span {
    /// So many blank words, and the right to give their memory back. It refuses 2^60 words or more.
    pub fn reserve<A: Allocator>(alloc: &A, len: usize) -> Result<(Span, Right<A>), AllocError>
        ensures { IfOk result (λ r. (r.0.items ≡ replicate len blank) × (r.1.heap ≡ alloc.now)
            × (r.1.at ≡ r.0.ptr) × (r.1.len ≡ len)) }
    {
        if len >= 1 << 60 {
            return Err(AllocError);
        }
        allocate(alloc, len)
    }

    /// The word at an index, which is a number.
    pub fn word(&mut self, i: usize) -> u64
        requires { (i < length self.old.items) × (slice_index self.old.items i < blank) }
        ensures { (self.new ≡ self.old) × (result ≡ slice_index self.old.items i) }
    {
        unsafe {
            let place = self.ptr.add(i);
            *place
        }
    }

    /// Writes the word at an index, which is a number or blank.
    pub fn put(&mut self, i: usize, x: u64)
        requires { (i < length self.old.items) × (slice_index self.old.items i ≤ blank) }
        ensures { (self.new.ptr ≡ self.old.ptr) × (self.new.items ≡ slice_set self.old.items i x) }
    {
        unsafe {
            let place = self.ptr.add(i);
            place.write(x);
        }
    }

    /// Gives the memory back. No word is away.
    pub fn release<A: Allocator>(self, right: Right<A>, alloc: &A, len: usize)
        requires of { (right.heap ≡ alloc.now) × (right.at ≡ self.ptr) × (right.len ≡ len)
            × (length self.items ≡ len) }
        requires here { (k : ℕ) → k < len → slice_index self.items k ≤ blank }
    {
        let Span { ptr } = self;
        let Right { marker: _ } = right;
        unsafe {
            alloc.deallocate(ptr as *mut u8, len * size_of::<u64>(), align_of::<u64>());
        }
    }
}
