//! How long a thread waits between two looks at a turn that is taken.

ghost use Rattle.std.specs.Prelude.{◌≡◌, ◌+◌, ◌-◌, ◌*◌, ◌/◌, ◌^◌, min};

use std::sync::atomic::{AtomicU64, Ordering};

// So many steps, a tenth of a microsecond, are the shortest wait.
const FIRST_PAUSE: u32 = 16;

// The number of the longest wait, which takes 2^9 times as long: some sixty microseconds.
const LONGEST: u32 = 9;

/// A thread looks until it has made the waits up to this number, each twice as long as the one
/// before up to the longest, and then sleeps. They take less than half a millisecond.
pub const WAITS: u32 = 16;

// A turn that was found taken counts as so many that were found free.
const RISE: u32 = 4;

// So many counts double the first wait.
const EACH_POWER: u32 = 32;

/// How often a thread lately found the turn taken.
///
/// Where several threads do little but take the turn, each move of it from one processor to
/// another takes longer than what is done in it. There a thread that finds the turn taken waits
/// for as long as some fifty rounds take, so that another goes on with what lies in its cache.
/// Where a thread mostly finds the turn free it waits for a tenth of a microsecond at first, since
/// a turn is held for less than one.
#[derive(Clone, Copy, Drop)]
pub struct Patience {
    taken: u32,
}

impl Patience {
    /// That of a thread which has found no turn taken yet.
    pub fn new() -> Patience
        ensures { result.taken ≡ 0 }
    {
        Patience { taken: 0 }
    }

    /// The turn was found free.
    pub fn found_free(&mut self)
        ensures { self.new.taken ≡ self.old.taken - 1 }
    {
        self.taken = self.taken.saturating_sub(1);
    }

    /// The turn was found taken.
    pub fn found_taken(&mut self)
        ensures { self.new.taken ≡ min (self.old.taken + RISE) (LONGEST * EACH_POWER) }
    {
        self.taken = self.taken.saturating_add(RISE).min(LONGEST * EACH_POWER);
    }

    /// The number of the first wait.
    pub fn first_wait(&self) -> u32
        ensures { result ≡ min (self.now.taken / EACH_POWER) LONGEST }
    {
        (self.taken / EACH_POWER).min(LONGEST)
    }
}

// The steps of the wait of this number, each twice as many as the one before, up to the longest.
fn steps(number: u32) -> u32
    ensures { result ≡ FIRST_PAUSE * 2 ^ min number LONGEST }
{
    FIRST_PAUSE << number.min(LONGEST)
}

/// The wait of this number. A step takes some nanoseconds: it is an addition to a word that no
/// other thread sees. `spin_loop` has no body here, so that nothing is left of a loop over it.
pub fn pause(number: u32) {
    let own = AtomicU64::new(0);
    for _ in 0..steps(number) {
        own.fetch_add(1, Ordering::SeqCst);
    }
}
