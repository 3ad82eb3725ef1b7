//! A gate at which a revision waits for another.

use hub_workers::Gate;
use std::sync::atomic::{AtomicU64, Ordering};
use std::thread;

/// How many looks at a flag come to nothing before a thread gives up.
const MOST_LOOKS: u64 = 10_000_000;

/// A gate at which a revision waits for another. A revision of a number from 64 on is never seen to
/// enter.
#[derive(Drop)]
pub struct Meeting {
    /// Who waits for whom, by number.
    pairs: [(u32, u32); 2],
    /// Who has entered: the bit of its number.
    entered: AtomicU64,
    /// How often a wait came to nothing.
    missed: AtomicU64,
}

impl Meeting {
    /// A gate with these pairs, of which the first waits for the second. Nobody has entered.
    pub fn new(pairs: [(u32, u32); 2]) -> Meeting {
        Meeting {
            pairs,
            entered: AtomicU64::new(0),
            missed: AtomicU64::new(0),
        }
    }

    fn has_entered(&self, revision: u32) -> bool {
        revision < 64 && self.entered.load(Ordering::SeqCst) & (1 << revision) != 0
    }

    /// Waits until the other has entered, but not for ever.
    fn wait_for(&self, other: u32) {
        for _ in 0..MOST_LOOKS {
            if self.has_entered(other) {
                return;
            }
            thread::yield_now();
        }
        self.missed.fetch_add(1, Ordering::SeqCst);
    }

    /// Whether no wait came to nothing, and each that was waited for has entered.
    pub fn has_met(&self) -> bool {
        for (_, other) in self.pairs {
            if !self.has_entered(other) {
                return false;
            }
        }
        self.missed.load(Ordering::SeqCst) == 0
    }
}

impl Gate for Meeting {
    fn enter(&self, revision: u32) {
        if revision < 64 {
            self.entered.fetch_or(1 << revision, Ordering::SeqCst);
        }
        for (who, other) in self.pairs {
            if who == revision {
                self.wait_for(other);
            }
        }
    }
}
