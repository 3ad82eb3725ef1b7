//! The table, its seats, and how it begins and ends.
ghost use Rattle.std.specs.Prelude.{◌≡◌, ℕ, ◌+◌, ◌*◌, ◌%◌, ◌^◌, ◌<◌, ◌≤◌, length};
ghost use Rattle.sparse_table.specs.Parts.{total_of};

use crate::closed::Closed;
use crate::rule::{Doing, Law, PartRule, Shape};
use crate::span::{Right, Span};
use crate::words::Words;
use crate::zeros::write_zeros;
use std::alloc::{AllocError, Global};

/// A seat of the words below a table. Its view is the user's, with the trail.
pub type Pass<V> = crate::words::Seat<Doing<V>>;

/// Words in parts of one width. The first word of each part is there from the start.
pub struct Table<V, K, P: PartRule<V, K>> {
    pub(crate) words: Words<Doing<V>, Shape<K>, Law<P>>,
    right: Right<Global>,
    // How many words there are, with first words and flags.
    pub(crate) total: usize,
    pub(crate) len: usize,
    pub(crate) width: usize,
    pub(crate) shift: u32,
    alloc: Global,
    ghost keyed: { (words.key.words ≡ len) × (words.key.width ≡ width) × (words.key.shift ≡ shift)
        × (words.id.words ≡ total) × (total ≡ total_of len shift) },
    ghost sized: { (0 < len) × (len ≤ 2 ^ 40) × (len % width ≡ 0) × (1 < width) × (2 ^ shift ≤ width)
        × (shift < 64) },
    ghost owed: { (right.heap ≡ alloc) × (right.at ≡ words.ptr) × (right.len ≡ total) },
}

/// A view of the table. It has no bytes.
#[derive(Drop)]
pub struct Seat<V> {
    pub(crate) pass: Pass<V>,
    ghost rests: { pass.view.trail.stage ≡ 0 },
}

// How many places of first words there are for each part, at least. A place is two words, so these
// are what a cache line of 64 bytes holds.
const PLACES: usize = 4;

// By how much an index is shifted to be the place of a first word: a power of two, by its exponent,
// that goes into this width. A width of `PLACES` or more has that many places at least, and fewer
// than twice as many.
fn shift_of(width: usize) -> u32
    requires { 0 < width }
    ensures { (2 ^ result ≤ width) × (result < 64) }
{
    let mut shift = 0;
    while shift < 62 && width >> shift >= 2 * PLACES {
        shift += 1;
    }
    shift
}

impl<V, K: Drop, P: PartRule<V, K>> Table<V, K, P> {
    ghost use Rattle.std.specs.Prelude.{Bool, false, [], ◌∷◌, IfOk};
    ghost use Rattle.sparse_table.specs.Parts.{seen};
    ghost use Rattle.sparse_table.specs.Ended.{first_words};
    ghost use Rattle.sparse_table.specs.Seats.{IsOf, view, number, known};

    /// A table of so many words in parts of this width, of which the word 0 is `first` and all others
    /// are 0. No part is there. It writes fewer than sixteen words for each part, two more, and the
    /// word 0, and no other.
    pub fn open(
        alloc: Global,
        len: usize,
        width: usize,
        first: u64,
        about: K,
    ) -> Result<(Table<V, K, P>, Seat<V>), AllocError>
        requires sizes { (0 < len) × (len ≤ 2 ^ 40) × (len % width ≡ 0) × (1 < width) }
        requires rule { P.holds about (seen (first_words len first) (P.first about ∷ [])) }
        requires bare { (P.needs 0 first ≡ false) × ((c : ℕ) → P.needs c 0 ≡ false) }
        ensures table { IfOk result (λ r. (r.0.len ≡ len) × (r.0.width ≡ width)
            × (r.0.words.key.about ≡ about)) }
        ensures seat { IfOk result (λ r. IsOf r.0 r.1 × (view r.1 ≡ P.first about)
            × (number r.1 ≡ 0) × (known r.1 ≡ [])) }
    {
        let shift = shift_of(width);
        let heads = 2 * ((len >> shift) + 1);
        let total = len + heads;
        let (mut span, right) = Span::reserve(&alloc, total)?;
        write_zeros(&mut span, len, heads);
        span.put(0, 0);
        span.put(len, first);
        let shape = Shape {
            about,
            words: len,
            width,
            shift,
        };
        let (words, pass) = Words::deal(&shape, span);
        let table = Table {
            words,
            right,
            total,
            len,
            width,
            shift,
            alloc,
        };
        Ok((table, Seat { pass }))
    }
}

impl<V, K, P: PartRule<V, K>> Table<V, K, P> {
    ghost use Rattle.atomic_table.specs.Table.{Seen};
    ghost use Rattle.sparse_table.specs.Ended.{AreLast};
    ghost use Rattle.sparse_table.specs.Last.{words_of};
    ghost use Rattle.sparse_table.specs.Seats.{IsOf, view, number};

    /// Ends the table. Its words are those of a state that meets the rule.
    pub fn close(self) -> Closed
        ensures sizes { (result.len ≡ self.len) × (result.width ≡ self.width) }
        ensures last { AreLast (P.holds self.words.key.about) (words_of result) }
        ensures long { length (words_of result) ≡ self.len }
    {
        let Table {
            words,
            right,
            total,
            len,
            width,
            shift,
            alloc,
        } = self;
        Closed {
            span: words.gather(),
            right,
            total,
            len,
            width,
            shift,
            alloc,
        }
    }

    /// The same, and the last state has the seat's view.
    pub fn close_with(self, seat: Seat<V>) -> Closed
        requires own { IsOf self seat }
        ensures sizes { (result.len ≡ self.len) × (result.width ≡ self.width) }
        ensures last { AreLast (Seen (P.holds self.words.key.about) (number seat) (view seat))
            (words_of result) }
        ensures long { length (words_of result) ≡ self.len }
    {
        let Seat { mut pass } = seat;
        let Table {
            words,
            right,
            total,
            len,
            width,
            shift,
            alloc,
        } = self;
        Closed {
            span: words.gather_with(&mut pass),
            right,
            total,
            len,
            width,
            shift,
            alloc,
        }
    }
}

impl<V, K, P: PartRule<V, K>> Drop for Table<V, K, P> {
    fn drop(self) {
        self.close().free();
    }
}
