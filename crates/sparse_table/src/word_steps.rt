//! Single steps on a word.
ghost use Rattle.std.specs.Prelude.{◌≡◌, ◌+◌, ◌%◌, ◌^◌, ◌<◌, ◌==◌};
ghost use prog.Atomic.{either};
ghost use Rattle.sparse_table.specs.Words.{step, Allows};

use crate::words::{Play, Seat, WordRule, Words};
use atomic_table::exchange;
use std::marker::Brand;
use std::sync::atomic::Ordering::SeqCst;
use std::sync::atomic::raw;

impl<V, K, P: WordRule<V, K>> Words<V, K, P> {
    /// The word at an index, which is a number.
    pub fn load<M: Play<V>>(&self, seat: &mut Seat<V>, word: usize) -> u64
        requires { (seat.old.words ≡ self.now.id) × (word < self.now.id.words)
            × Allows (P.holds self.now.key) seat.old.id seat.old.view word (λ n. n)
            (M.then (step word 0 0) seat.old.view) }
        ensures { (seat.new.words ≡ seat.old.words) × (seat.new.id ≡ seat.old.id)
            × M.then (step word 0 0) seat.old.view result seat.new.view }
    {
        unsafe { raw::load::<Brand>(self.ptr.add(word), SeqCst) }
    }

    /// Makes this number the word at an index, which is a number before.
    pub fn store<M: Play<V>>(&self, seat: &mut Seat<V>, word: usize, new: u64)
        requires { (seat.old.words ≡ self.now.id) × (word < self.now.id.words)
            × Allows (P.holds self.now.key) seat.old.id seat.old.view word (λ _. new)
            (λ _. M.then (step word new 0) seat.old.view new) }
        ensures { (seat.new.words ≡ seat.old.words) × (seat.new.id ≡ seat.old.id)
            × M.then (step word new 0) seat.old.view new seat.new.view }
    {
        unsafe { raw::store::<Brand>(self.ptr.add(word), new, SeqCst) }
    }

    /// Adds to the word at an index, modulo 2^64, and returns it as it was.
    pub fn fetch_add<M: Play<V>>(&self, seat: &mut Seat<V>, word: usize, k: u64) -> u64
        requires { (seat.old.words ≡ self.now.id) × (word < self.now.id.words)
            × Allows (P.holds self.now.key) seat.old.id seat.old.view word (λ n. (n + k) % 2 ^ 64)
            (M.then (step word k 0) seat.old.view) }
        ensures { (seat.new.words ≡ seat.old.words) × (seat.new.id ≡ seat.old.id)
            × M.then (step word k 0) seat.old.view result seat.new.view }
    {
        unsafe { raw::fetch_add::<Brand>(self.ptr.add(word), k, SeqCst) }
    }

    /// Returns the word as it was, which has become `new` if it was `old`.
    pub fn compare_exchange<M: Play<V>>(
        &self,
        seat: &mut Seat<V>,
        word: usize,
        old: u64,
        new: u64,
    ) -> u64
        requires { (seat.old.words ≡ self.now.id) × (word < self.now.id.words)
            × Allows (P.holds self.now.key) seat.old.id seat.old.view word
            (λ n. either (n == old) new n) (M.then (step word old new) seat.old.view) }
        ensures { (seat.new.words ≡ seat.old.words) × (seat.new.id ≡ seat.old.id)
            × M.then (step word old new) seat.old.view result seat.new.view }
    {
        unsafe { exchange::<Brand>(self.ptr.add(word), old, new) }
    }
}
