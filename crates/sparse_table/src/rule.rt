//! What a user states of a table, and what the proofs keep of each seat.
ghost use Rattle.std.specs.Prelude.{ℕ, List, Bool};
ghost use Rattle.std.specs.Borrow.{ftrue};
ghost use Rattle.atomic_table.specs.Table.{State};

use crate::words::WordRule;
use std::marker::{Model, PhantomData};

/// V is what a seat knows, and K what the table is told once, when it is made. A part is named by the
/// index of its first word.
pub trait PartRule<V, K> {
    // The user's fact about the list of all words and the views of all seats. A word of a part that
    // is not there is 0.
    ghost holds: { K → State (Unit {0}) V → Type 0 };

    // The view of the first seat.
    ghost first: { K → V };

    // Whether a seat of this view may make this part.
    ghost makes: { V → ℕ → Type 0 };

    // Whether this part has to be there where its first word is this.
    ghost needs: { ℕ → ℕ → Bool };
}

/// What a seat knows of parts. No value of it is made.
pub struct Trail {
    // How many words the table has, how many a part, and the shift of first words.
    pub ghost words: { ℕ },
    pub ghost width: { ℕ },
    pub ghost shift: { ℕ },
    // The parts that it knows to be there.
    pub ghost known: { List ℕ },
    // How far it is with the part that it makes, and the part.
    pub ghost stage: { ℕ },
    pub ghost part: { ℕ },
}

impl Model for Trail {
    ghost also_owns = { λ _. ftrue };
}

/// The view of a seat, and its trail. No value of it is made.
pub struct Doing<V> {
    pub trail: Trail,
    pub client: V,
}

/// What is fixed when the table is made: how many words it has, how many a part, and the power of two
/// by which the first words lie closer.
#[derive(Drop)]
pub struct Shape<K> {
    pub about: K,
    pub words: usize,
    pub width: usize,
    pub shift: u32,
}

/// The rule of the words below a table, made of the user's.
pub struct Law<P> {
    rule: PhantomData<P>,
}

impl<V, K, P: PartRule<V, K>> WordRule<Doing<V>, Shape<K>> for Law<P> {
    ghost use Rattle.std.specs.Prelude.{[]};
    ghost use Rattle.sparse_table.specs.Parts.{Rules, resting};

    ghost holds = { λ key. Rules (P.holds key.about) P.makes P.needs key.words key.width key.shift };

    ghost first = { λ key. resting key.words key.width key.shift [] (P.first key.about) };
}
