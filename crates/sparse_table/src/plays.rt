//! What each step on a word tells.
ghost use Rattle.sparse_table.specs.Plays.{head_told, head_cut, inner_told, begun, took, entered};
ghost use Rattle.sparse_table.specs.Parts.{doing, resting};

use crate::rule::Doing;
use crate::words::Play;
use atomic_table::{Join, Split};
use std::marker::PhantomData;

/// A step of the user's on the first word of a part.
pub struct Head<M> {
    play: PhantomData<M>,
}

impl<V, M: atomic_table::Play<(), V>> Play<Doing<V>> for Head<M> {
    ghost then = { head_told M.then };
}

/// The same where the operand is taken off.
pub struct Cut<M> {
    play: PhantomData<M>,
}

impl<V, M: atomic_table::Play<(), V>> Play<Doing<V>> for Cut<M> {
    ghost then = { head_cut M.then };
}

/// A step of the user's on another word.
pub struct Inner<M> {
    play: PhantomData<M>,
}

impl<V, M: atomic_table::Play<(), V>> Play<Doing<V>> for Inner<M> {
    ghost then = { inner_told M.then };
}

/// A look at the flag of a part, by a seat that is to make the part where it is not there.
pub struct Begin;

impl<V> Play<Doing<V>> for Begin {
    ghost then = { begun };
}

/// A store to the flag of the part that the seat makes, at which the blank words of it leave.
pub struct Take;

impl<V> Play<Doing<V>> for Take {
    ghost then = { took };
}

/// A store to that flag, at which the words come back and the seat knows the part to be there.
pub struct Enter;

impl<V> Play<Doing<V>> for Enter {
    ghost then = { entered };
}

/// How the user cuts a view. The new seat knows the same parts.
pub struct Twin<M> {
    split: PhantomData<M>,
}

impl<V, M: Split<V>> Split<Doing<V>> for Twin<M> {
    ghost left = { λ d. doing d.trail (M.left d.client) };

    ghost right = { λ d. doing d.trail (M.right d.client) };
}

/// How the user joins two views.
pub struct Pair<M> {
    join: PhantomData<M>,
}

impl<V, M: Join<V>> Join<Doing<V>> for Pair<M> {
    ghost use Rattle.std.specs.Prelude.{[]};

    ghost both = { λ d e. doing d.trail (M.both d.client e.client) };

    ghost spent = { resting 0 0 0 [] M.spent };
}
