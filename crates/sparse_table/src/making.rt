//! How blank words leave, and come back as numbers.
ghost use Rattle.std.specs.Prelude.{◌≡◌, ◌+◌, ◌<◌, ◌≤◌, length, replicate};
ghost use Rattle.sparse_table.specs.Owned.{place};
ghost use Rattle.sparse_table.specs.Words.{step, blank, Takes, Lays};

use crate::span::Span;
use crate::words::{Play, Seat, WordRule, Words};
use std::marker::Brand;
use std::sync::atomic::Ordering::SeqCst;
use std::sync::atomic::raw;

impl<V, K, P: WordRule<V, K>> Words<V, K, P> {
    /// A store by which so many blank words are away afterwards, and with the caller.
    pub fn take<M: Play<V>>(
        &self,
        seat: &mut Seat<V>,
        word: usize,
        new: u64,
        from: usize,
        count: usize,
    ) -> Span
        requires { (seat.old.words ≡ self.now.id) × (word < self.now.id.words)
            × (from + count ≤ self.now.id.words)
            × Takes (P.holds self.now.key) seat.old.id seat.old.view word new from count
            (M.then (step word new 0) seat.old.view new) }
        ensures seat { (seat.new.words ≡ seat.old.words) × (seat.new.id ≡ seat.old.id)
            × M.then (step word new 0) seat.old.view new seat.new.view }
        ensures span { (result.ptr ≡ place self.now.ptr from) × (result.items ≡ replicate count blank) }
    {
        let ptr = unsafe { self.ptr.add(from) };
        unsafe { raw::store::<Brand>(self.ptr.add(word), new, SeqCst) };
        Span { ptr }
    }

    /// A store by which a span comes to where it lies.
    pub fn lay<M: Play<V>>(
        &self,
        seat: &mut Seat<V>,
        word: usize,
        new: u64,
        from: usize,
        span: Span,
    )
        requires { (seat.old.words ≡ self.now.id) × (word < self.now.id.words)
            × (span.ptr ≡ place self.now.ptr from)
            × (from + length span.items ≤ self.now.id.words)
            × Lays (P.holds self.now.key) seat.old.id seat.old.view word new from span.items
            (M.then (step word new 0) seat.old.view new) }
        ensures { (seat.new.words ≡ seat.old.words) × (seat.new.id ≡ seat.old.id)
            × M.then (step word new 0) seat.old.view new seat.new.view }
    {
        let Span { ptr: _ } = span;
        unsafe { raw::store::<Brand>(self.ptr.add(word), new, SeqCst) }
    }
}
