//! How a thread looks for work that has found nothing.
ghost use Rattle.std.specs.Prelude.{◌≡◌, ◌↔◌, ◌<◌, ◌*◌, ◌/◌, min, true, false};
ghost use Rattle.hub_workers.specs.Looks.{look_of, most_rings, rings_since};

use crate::bell::{Bell, ready_mark};
use crate::legs::Legs;
use std::sync::Wait;
use turn_hub::TurnHub;

// How many microseconds a scout naps, at least and at most.
const SHORT_NAP: u64 = 50;

const LONG_NAP: u64 = 6400;

// After so many microseconds of sleep a thread asks for a child that is kept, at first. Each time
// that it has found nothing in the end, it asks after twice as long, up to the longest nap.
const FIRST_ASK: u64 = 200;

// So many microseconds later than it should a nap ends.
const LATE: u64 = 50;

// A revision rings up to three times: where it is forked, where it is taken, and where its joiner
// is. Where a ring comes in so many microseconds, moving a revision to another thread takes about
// as long as it runs.
const EACH_RING: u64 = 3;

// What a look tells a scout.
#[derive(Drop)]
enum Look {
    /// Something is ready to which the threads that run do not come soon, or so much that there is
    /// enough for all, or all is over.
    Take,
    /// Revisions come and go within microseconds.
    Again,
    /// Little happens, so that others had better wake it.
    Park,
}

// What was so before a nap: the hub's mark, and the count of rings.
#[derive(Drop)]
struct Before {
    mark: u64,
    heard: u64,
}

/// How a thread stands to the bell, and how long it naps between two looks.
#[derive(Drop)]
pub struct Scout {
    is_scout: bool,
    nap: u64,
    // After so many microseconds of sleep it asks for a child that is kept.
    patience: u64,
}

/// A thread has taken what was ready. Another may take the next.
pub fn pass_on<L: Legs>(hub: &TurnHub<L>, bell: &Bell) {
    if ready_mark(hub) != 0 {
        bell.ring();
    }
}

// Whether it rang more often than each `EACH_RING` microseconds of a nap of so many, by the counts
// of rings before and after it.
fn rang_often(before: u64, after: u64, nap: u64) -> bool
    ensures { result ≡ true ↔ most_rings nap < rings_since before after }
{
    after.wrapping_sub(before) > nap.saturating_add(LATE) / EACH_RING
}

// What a scout does, by the mark before its nap and after it. A thread that forks within less than
// `EACH_RING` and joins nothing changes the mark all the time, and leaves more and more ready. So
// where two revisions were ready for each thread at both looks, there is enough to take from.
fn decide(before: u64, after: u64, is_enough: bool, is_busy: bool) -> Look
    ensures { result ≡ look_of before after is_enough is_busy }
{
    if after != 0 && (after == before || is_enough || !is_busy) {
        return Look::Take;
    }
    if is_busy { Look::Again } else { Look::Park }
}

// The nap after one of so many microseconds, or how long a thread sleeps before it asks again.
fn longer(nap: u64) -> u64
    ensures { result ≡ min (2 * nap) LONG_NAP }
{
    nap.saturating_mul(2).min(LONG_NAP)
}

// A look after a nap of so many microseconds.
fn judge<L: Legs>(hub: &TurnHub<L>, bell: &Bell, before: &Before, nap: u64) -> Look {
    if bell.is_over() {
        return Look::Take;
    }
    let is_busy = rang_often(before.heard, bell.heard(), nap);
    let mark = ready_mark(hub);
    let is_enough = bell.has_two_each(before.mark) && bell.has_two_each(mark);
    decide(before.mark, mark, is_enough, is_busy)
}

impl Scout {
    /// A thread that is no scout, at the start.
    pub fn new() -> Scout
        ensures { (result.is_scout ≡ false) × (result.nap ≡ SHORT_NAP) × (result.patience ≡ FIRST_ASK) }
    {
        Scout {
            is_scout: false,
            nap: SHORT_NAP,
            patience: FIRST_ASK,
        }
    }

    // Naps and looks until it should take from the hub or sleep. After a look that found that
    // revisions come and go, the next nap is twice as long. Before the first nap it looks whether
    // there is enough for all, as in a burst of forks.
    fn watch<L: Legs, W: Wait>(&mut self, rt: &W, hub: &TurnHub<L>, bell: &Bell) -> Look {
        if bell.has_two_each(ready_mark(hub)) {
            return Look::Take;
        }
        for _ in rt.forever() {
            let before = Before {
                mark: ready_mark(hub),
                heard: bell.heard(),
            };
            bell.nap(rt, self.nap);
            match judge(hub, bell, &before, self.nap) {
                Look::Again => self.nap = longer(self.nap),
                other => {
                    self.nap = SHORT_NAP;
                    return other;
                },
            }
        }
        unreachable!()
    }

    /// What a thread does that has found nothing: it sleeps, unless a thread was woken since
    /// `called`, and is the scout then. A scout naps. When it returns the thread takes from the hub
    /// again.
    pub fn rest<L: Legs, W: Wait>(&mut self, rt: &W, hub: &TurnHub<L>, bell: &Bell, called: u64) {
        if !self.is_scout {
            bell.sleep(rt, hub, called, self.patience);
        }
        match self.watch(rt, hub, bell) {
            Look::Park => {
                self.patience = longer(self.patience);
                self.is_scout = false;
                bell.stop_scouting();
            },
            _ => self.is_scout = true,
        }
    }

    /// The thread has taken what was ready, and is the scout no more.
    pub fn pass_on<L: Legs>(&mut self, hub: &TurnHub<L>, bell: &Bell) {
        self.patience = FIRST_ASK;
        if self.is_scout {
            self.is_scout = false;
            bell.stop_scouting();
        }
        pass_on(hub, bell);
    }
}
