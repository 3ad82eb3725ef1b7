//! What the entries and the rounds of all seats come to.
ghost use Rattle.std.specs.Prelude.{◌≡◌, ◌<◌, ◌≤◌, ◌+◌, ◌-◌, ◌++◌, ◌⊎◌, ℕ, [], length, None, Some};
ghost use Rattle.std.specs.Prelude.{vec_len, vec_capacity};
ghost use Rattle.hub_core.specs.Rounds.{first_at, behind_at, last_or};
ghost use Rattle.hub_core.specs.Woven.{pairs_from, rounds_at};

use crate::journal::{Entry, Looped};
use crate::vectors::append;

/// A round: its child, and the joinee and the forker that made it.
#[derive(Clone, Copy)]
pub struct Round {
    pub child: u32,
    pub joinee: u32,
    pub forker: u32,
}

/// So many numbers without a round.
pub fn lay_out(rounds: &mut Vec<Option<Looped>>, born: usize)
    requires { (rounds.old.items ≡ []) × (born ≤ vec_capacity rounds.old) }
    ensures many { length rounds.new.items ≡ born }
    ensures none { (n : ℕ) → rounds_at rounds.new.items n ≡ None }
{
    for _ in 0..born {
        append(rounds, None);
    }
}

/// The entries of this count, from a place on, stand in the schedule then: the place behind them,
/// and the last of them, or 0.
pub fn take_entries(
    schedule: &mut Vec<u32>,
    entries: &[Entry],
    from: usize,
    count: u32,
) -> (usize, u32)
    requires place { from ≤ length entries.now }
    requires room { vec_len schedule.old + length entries.now ≤ vec_capacity schedule.old + from }
    ensures schedule { schedule.new.items
        ≡ schedule.old.items ++ first_at count (pairs_from from entries.now) }
    ensures behind { pairs_from result.0 entries.now
        ≡ behind_at count (pairs_from from entries.now) }
    ensures last { result.1 ≡ last_or 0 (first_at count (pairs_from from entries.now)) }
    ensures place { (from ≤ result.0) × (result.0 ≤ length entries.now) }
    ensures room { (vec_len schedule.new + from ≡ vec_len schedule.old + result.0)
        × (vec_capacity schedule.old ≤ vec_capacity schedule.new) }
{
    let mut last = 0;
    for at in from..entries.len() {
        let entry = entries[at];
        if entry.count != count {
            return (at, last);
        }
        append(schedule, entry.number);
        last = entry.number;
    }
    (entries.len(), last)
}
