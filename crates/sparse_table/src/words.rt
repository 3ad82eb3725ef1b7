//! The words as threads see them, and what one of these knows.
ghost use Rattle.std.specs.Prelude.{◌≡◌, ℕ, length};
ghost use Rattle.sparse_table.specs.Words.{State, Step, opening, Final, Seen};
ghost use Rattle.sparse_table.specs.Owned.{WordsId, words_id_coded, words_own, words_share, mine};

use crate::span::Span;
use std::marker::{Model, PhantomData};

/// V is what a seat knows, and K what the words are told once, at the start.
pub trait WordRule<V, K> {
    ghost holds: { K → State V → Type 0 };

    // The view of the first seat.
    ghost first: { K → V };
}

/// What a step tells its caller.
pub trait Play<V> {
    // Of the step, the view before, the number found (at a store, the number stored) and the view after.
    ghost then: { Step → V → ℕ → V → Type 0 };
}

/// Words that threads share.
pub struct Words<V, K, P: WordRule<V, K>> {
    pub(crate) ptr: *mut u64,
    marker: PhantomData<(P, V, K)>,
    pub ghost id: { WordsId } by { words_id_coded },
    pub ghost key: { K },
}

impl<V, K, P: WordRule<V, K>> Model for Words<V, K, P> {
    ghost also_owns = { λ t. words_own V.row.coded.code (P.holds t.key) t.ptr t.id };

    ghost also_shares = { λ t _ κ. words_share V.row.coded.code (P.holds t.key) t.ptr t.id κ };
}

/// A view of the words. It has no bytes.
pub struct Seat<V> {
    pub(crate) marker: PhantomData<V>,
    pub ghost words: { WordsId } by { words_id_coded },
    pub ghost id: { ℕ },
    pub ghost view: { V },
}

impl<V> Model for Seat<V> {
    ghost also_owns = { λ s. mine V.row.coded.code s.words s.id s.view };
}

impl<V, K, P: WordRule<V, K>> Words<V, K, P> {
    /// Brings a span under the rule, and makes the first seat. The words are told what is in `about`.
    pub fn deal(about: &K, span: Span) -> (Words<V, K, P>, Seat<V>)
        requires { P.holds about.now (opening span.items (P.first about.now)) }
        ensures words { (result.0.id.words ≡ length span.items) × (result.0.ptr ≡ span.ptr)
            × (result.0.key ≡ about.now) }
        ensures seat { (result.1.words ≡ result.0.id) × (result.1.id ≡ 0)
            × (result.1.view ≡ P.first about.now) }
    {
        let Span { ptr } = span;
        (
            Words {
                ptr,
                marker: PhantomData,
            },
            Seat {
                marker: PhantomData,
            },
        )
    }

    /// The words at the end are those of a state that meets the rule.
    pub fn gather(self) -> Span
        ensures { (result.ptr ≡ self.ptr) × (length result.items ≡ self.id.words)
            × Final (P.holds self.key) result.items }
    {
        let Words { ptr, marker: _ } = self;
        Span { ptr }
    }

    /// The same, and the last state has the seat's view.
    pub fn gather_with(self, seat: &mut Seat<V>) -> Span
        requires { seat.old.words ≡ self.id }
        ensures { (result.ptr ≡ self.ptr) × (length result.items ≡ self.id.words)
            × Final (Seen (P.holds self.key) seat.old.id seat.old.view) result.items }
    {
        let Words { ptr, marker: _ } = self;
        Span { ptr }
    }
}

impl<V> Drop for Seat<V> {
    fn drop(self) {
        let Self { marker: _ } = self;
    }
}

unsafe impl<V> Send for Seat<V> {}

unsafe impl<V, K, P: WordRule<V, K>> Send for Words<V, K, P> {}

unsafe impl<V, K, P: WordRule<V, K>> Sync for Words<V, K, P> {}
