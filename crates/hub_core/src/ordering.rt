//! How the close puts the schedule together.
ghost use Rattle.std.specs.Prelude.{◌≡◌, ◌<◌, ◌≤◌, ◌+◌, ◌-◌, ◌*◌, ◌^◌, ◌++◌, ℕ, [], ◌∷◌, length, map};
ghost use Rattle.std.specs.Prelude.{vec_len, vec_capacity};
ghost use Rattle.hub_core.specs.Tally.{pairs};
ghost use Rattle.hub_core.specs.Rounds.{entries_of, looped_by, weave, weave_forkers};
ghost use Rattle.hub_core.specs.Woven.{pairs_from, looped_pair, rounds_at, triples};
ghost use Rattle.hub_core.specs.Ordered.{all_rounds, AreBelow, placed, look_of, forker_or};

use crate::closing::{Round, lay_out, take_entries};
use crate::journal::{Entry, Journal, Looped};
use crate::vectors::append;

/// The schedule, by number the forkers, and room for the ends.
pub struct Ordered<E> {
    pub schedule: Vec<u32>,
    pub forkers: Vec<u32>,
    pub ends: Vec<Option<E>>,
}

// A round stands at the number of its child.
fn put_round(rounds: &mut Vec<Option<Looped>>, round: Round)
    requires { round.child < length rounds.old.items }
    ensures many { length rounds.new.items ≡ length rounds.old.items }
    ensures at { (n : ℕ) → rounds_at rounds.new.items n
        ≡ placed ((round.child, round.joinee, round.forker) ∷ [])
        (rounds_at rounds.old.items) n }
{
    rounds[round.child as usize] = Some(Looped {
        joinee: round.joinee,
        forker: round.forker,
    });
}

// The rounds of one seat, each at the number of its child.
fn put_list(rounds: &mut Vec<Option<Looped>>, list: &[Round])
    requires { AreBelow (length rounds.old.items) (triples list.now) }
    ensures many { length rounds.new.items ≡ length rounds.old.items }
    ensures at { (n : ℕ) → rounds_at rounds.new.items n
        ≡ placed (triples list.now) (rounds_at rounds.old.items) n }
{
    for at in 0..list.len() {
        put_round(rounds, list[at]);
    }
}

// The rounds of all seats.
fn put_lists(rounds: &mut Vec<Option<Looped>>, lists: &[Vec<Round>])
    requires { AreBelow (length rounds.old.items) (all_rounds (map
        (λ l. triples l.items) lists.now)) }
    ensures many { length rounds.new.items ≡ length rounds.old.items }
    ensures at { (n : ℕ) → rounds_at rounds.new.items n
        ≡ placed (all_rounds (map (λ l. triples l.items) lists.now))
        (rounds_at rounds.old.items) n }
{
    for at in 0..lists.len() {
        put_list(rounds, lists[at].as_slice());
    }
}

// The entries of a round, and its forker. Where there is none, what entered last was the fork.
fn take_round(schedule: &mut Vec<u32>, round: Option<Looped>, last: u32) -> u32
    requires { vec_len schedule.old + 3 ≤ vec_capacity schedule.old }
    ensures schedule { schedule.new.items
        ≡ schedule.old.items ++ looped_by (looped_pair round) }
    ensures forker { result ≡ forker_or last (looped_pair round) }
    ensures room { (vec_len schedule.new ≤ vec_len schedule.old + 3)
        × (vec_capacity schedule.old ≤ vec_capacity schedule.new) }
{
    let Some(Looped { joinee, forker }) = round else {
        return last;
    };
    append(schedule, joinee);
    append(schedule, forker);
    append(schedule, forker);
    forker
}

// All entries from a place on.
fn take_rest(schedule: &mut Vec<u32>, entries: &[Entry], from: usize)
    requires place { from ≤ length entries.now }
    requires room { vec_len schedule.old + length entries.now ≤ vec_capacity schedule.old + from }
    ensures { schedule.new.items
        ≡ schedule.old.items ++ entries_of (pairs_from from entries.now) }
{
    for at in from..entries.len() {
        append(schedule, entries[at].number);
    }
}

// The schedule and the forkers, by the entries and by the rounds of all numbers.
fn put_together(
    schedule: &mut Vec<u32>,
    forkers: &mut Vec<u32>,
    entries: &[Entry],
    rounds: &[Option<Looped>],
)
    requires some { (0 < length rounds.now) × (length rounds.now < 2 ^ 32) }
    requires none { (schedule.old.items ≡ []) × (forkers.old.items ≡ []) }
    requires room { (3 * length rounds.now + length entries.now ≤ vec_capacity schedule.old)
        × (length rounds.now ≤ vec_capacity forkers.old) }
    ensures schedule { schedule.new.items
        ≡ weave (length rounds.now - 1) 1 (pairs entries.now) (rounds_at rounds.now) }
    ensures forkers { forkers.new.items
        ≡ 0 ∷ weave_forkers (length rounds.now - 1) 1 (pairs entries.now)
        (rounds_at rounds.now) }
{
    append(forkers, 0);
    let mut at = 0;
    for number in 1..rounds.len() {
        let (next, last) = take_entries(schedule, entries, at, number as u32);
        at = next;
        let forker = take_round(schedule, rounds[number], last);
        append(forkers, forker);
    }
    take_rest(schedule, entries, at);
}

impl<E> Journal<E> {
    /// The schedule and the forkers of so many revisions, by the entries of the turns and the rounds
    /// of all seats. No memory is taken.
    pub fn order(self, born: usize, lists: &[Vec<Round>]) -> Ordered<E>
        requires born { (0 < born) × (born ≤ self.limit) }
        requires below { AreBelow born (all_rounds (map (λ l. triples l.items) lists.now)) }
        ensures schedule { result.schedule.items ≡ weave (born - 1) 1 (pairs self.entries.items)
            (look_of (all_rounds (map (λ l. triples l.items) lists.now))) }
        ensures forkers { result.forkers.items
            ≡ 0 ∷ weave_forkers (born - 1) 1 (pairs self.entries.items)
            (look_of (all_rounds (map (λ l. triples l.items) lists.now))) }
        ensures ends { (result.ends.items ≡ []) × (born ≤ vec_capacity result.ends) }
    {
        let Journal {
            entries,
            limit: _,
            mut schedule,
            mut forkers,
            mut rounds,
            ends,
        } = self;
        lay_out(&mut rounds, born);
        put_lists(&mut rounds, lists);
        put_together(
            &mut schedule,
            &mut forkers,
            entries.as_slice(),
            rounds.as_slice(),
        );
        Ordered {
            schedule,
            forkers,
            ends,
        }
    }
}
