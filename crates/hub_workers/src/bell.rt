//! What threads sleep on that have nothing to do.
ghost use Rattle.std.specs.Prelude.{◌≡◌, ◌↔◌, ◌≤◌, ◌*◌, ◌%◌, ◌^◌, true};
ghost use Rattle.hub_core.specs.Marks.{told_many};

use crate::legs::Legs;
use hub_core::marked;
use std::sync::Wait;
use std::sync::atomic::{AtomicBool, AtomicU64, Ordering};
use std::time::Duration;
use turn_hub::TurnHub;

/// A count of what happened at a hub, and of the threads that sleep until more happens.
///
/// At most one thread is the scout, but for the last case below: it was woken, or is being woken,
/// and has found nothing yet. While there is one, nobody is woken. Who finds something is the scout
/// no more, and wakes the next where more is ready. So a wake travels on while there is work, and
/// who makes revisions ready does not pay for it.
///
/// No revision that is ready is lost:
/// - A thread reads the count of calls, then looks for work, then counts itself as a sleeper, and
///   then sleeps only if the hub's mark tells that nothing is ready and the count of calls is the
///   same. Who rings made its revision ready, so that the mark tells of it, and then looks for
///   sleepers and for a scout. So one of the two sees the other. Where all threads have work to do,
///   nobody writes to the bell.
/// - Who rings and sees a scout counts the ring and leaves its revision to that: a scout that stops
///   being one does so first, and then looks whether something is ready, or takes from the hub.
/// - Who makes a thread the scout has a sleeper: it looks for one again after it has said that
///   there is a scout, and only then counts its call, and wakes. A sleeper that it saw either sleeps
///   by then, so that the wake reaches one, or finds another count of calls. So there is no scout
///   that nobody is.
/// - A scout that stays one naps for some milliseconds at most, and then looks again. It leaves a
///   revision that is ready to the threads that run only while they make others ready all the time,
///   and while fewer than two for each thread are ready. Once that is not so, it takes from the hub
///   after its next nap or the one after that.
/// - Two threads can be the scout where one returned from its sleep for no reason. The first that
///   finds something then says that there is none, and somebody is woken too early.
///
/// A child that its forker's thread keeps is not ready, so nobody rings for it. A thread that has
/// slept for a while with nothing ready asks for one, and sleeps on. The next forker that would keep
/// its child makes that ready in its place, and rings: one child for each time that was asked. Who
/// asked and found nothing in the end asks later the next time. So a loop of tiny revisions gives
/// one of some thousands away, and long ones come to a thread that is idle.
#[derive(Drop)]
pub struct Bell {
    // How many threads work at the hub.
    workers: u64,
    rings: AtomicU64,
    // How often a thread was woken, or all were. Sleepers sleep on it.
    calls: AtomicU64,
    sleepers: AtomicU64,
    scouted: AtomicBool,
    // A sleeper asks for a child that would be kept.
    asked: AtomicBool,
    // 1 where all is over. Scouts sleep on it.
    over: AtomicU64,
}

// The bits of the count of calls that a sleep compares.
fn low_bits(count: u64) -> u32
    ensures { result ≡ count % 2 ^ 32 }
{
    (count % (1 << 32)) as u32
}

/// The hub's mark, as it was when the turn was last given back.
pub(crate) fn ready_mark<L: Legs>(hub: &TurnHub<L>) -> u64 {
    hub.signs.mark.load(Ordering::SeqCst)
}

impl Bell {
    /// Nobody sleeps yet of so many threads.
    pub fn new(workers: usize) -> Bell
        ensures { result.workers ≡ workers }
    {
        Bell {
            workers: workers as u64,
            rings: AtomicU64::new(0),
            calls: AtomicU64::new(0),
            sleepers: AtomicU64::new(0),
            scouted: AtomicBool::new(false),
            asked: AtomicBool::new(false),
            over: AtomicU64::new(0),
        }
    }

    /// What a thread remembers before it looks for work. No clause rests on what it answers, which
    /// only chooses whether a thread sleeps.
    pub fn called(&self) -> u64 {
        self.calls.load(Ordering::SeqCst)
    }

    /// How often it rang while there was a scout.
    pub fn heard(&self) -> u64 {
        self.rings.load(Ordering::SeqCst)
    }

    /// Something is ready that the caller does not take at once.
    pub fn ring(&self) {
        if self.has_scout() {
            self.rings.fetch_add(1, Ordering::SeqCst);
        } else if self.has_sleepers() {
            self.wake_scout();
        }
    }

    /// Whether a thread that sleeps asks for a child that its forker's thread would keep. Of those
    /// that look, one is told. No clause rests on what it answers, which only chooses whether a
    /// forker keeps its child.
    pub fn is_asked(&self) -> bool {
        self.asked.load(Ordering::SeqCst) && self.asked.swap(false, Ordering::SeqCst)
    }

    fn has_sleepers(&self) -> bool {
        self.sleepers.load(Ordering::SeqCst) > 0
    }

    fn has_scout(&self) -> bool {
        self.scouted.load(Ordering::SeqCst)
    }

    // Wakes one thread, unless another does.
    fn wake_scout(&self) {
        if self.scouted.swap(true, Ordering::SeqCst) {
            return;
        }
        if self.has_sleepers() {
            self.calls.fetch_add(1, Ordering::SeqCst);
            self.calls.wake_one();
        } else {
            self.stop_scouting();
        }
    }

    /// Whether a hub's mark tells that two revisions are ready for each thread.
    pub fn has_two_each(&self, mark: u64) -> bool
        ensures { result ≡ true ↔ 2 * self.now.workers ≤ told_many mark }
    {
        marked(mark) / 2 >= self.workers
    }

    /// The caller is the scout no more.
    pub fn stop_scouting(&self) {
        self.scouted.store(false, Ordering::SeqCst);
    }

    /// All is over: whoever sleeps has to look again.
    pub fn ring_all(&self) {
        self.over.store(1, Ordering::SeqCst);
        self.calls.fetch_add(1, Ordering::SeqCst);
        self.over.wake_all();
        self.calls.wake_all();
    }

    /// Whether all is over.
    pub fn is_over(&self) -> bool {
        self.over.load(Ordering::SeqCst) == 1
    }

    // Sleeps until it is called. After so many microseconds it asks for a child, unless something is
    // ready. Where nobody was called meanwhile it is as if it had slept all the time.
    fn sleep_and_ask<L: Legs, W: Wait>(
        &self,
        rt: &W,
        hub: &TurnHub<L>,
        called: u64,
        patience: u64,
    ) {
        let bits = low_bits(called);
        self.calls
            .park_timeout(rt, bits, Duration::from_micros(patience));
        if self.called() == called {
            if ready_mark(hub) == 0 {
                self.asked.store(true, Ordering::SeqCst);
            }
            self.calls.park(rt, bits);
        }
    }

    /// Sleeps, unless something is ready or a thread was woken since `called`, and is the scout then.
    /// It asks for a child after so many microseconds. It may return for no reason.
    pub fn sleep<L: Legs, W: Wait>(&self, rt: &W, hub: &TurnHub<L>, called: u64, patience: u64) {
        self.sleepers.fetch_add(1, Ordering::SeqCst);
        if ready_mark(hub) == 0 {
            self.sleep_and_ask(rt, hub, called, patience);
        }
        self.sleepers.fetch_sub(1, Ordering::SeqCst);
        self.scouted.store(true, Ordering::SeqCst);
    }

    /// A scout sleeps for so many microseconds, unless all is over.
    pub fn nap<W: Wait>(&self, rt: &W, micros: u64) {
        self.over.park_timeout(rt, 0, Duration::from_micros(micros));
    }
}
