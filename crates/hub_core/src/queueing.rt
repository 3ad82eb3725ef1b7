//! How the lists of what is ready and of what waits change. No call goes along a list, and only
//! `reach` has a loop, which has no round where there is a revision of the number.
ghost use Rattle.std.specs.Prelude.{◌≡◌, ◌<◌, ◌≤◌, ◌+◌, ◌^◌, ℕ, [], length, true, None};
ghost use Rattle.std.specs.Prelude.{Option, vec_len, vec_capacity};
ghost use Rattle.hub_core.specs.Chains.{IsAsLong, KeepsLists, Adds, Takes, Waits, Wakes, EndsOne};
ghost use Rattle.hub_core.specs.Chains.{IsWithin, chain_at, is_first};
ghost use Rattle.hub_core.specs.Marks.{counted, first_in, mark_of, told_many, told_first};
ghost use Rattle.hub_core.specs.declared.run_queue.Chain.{Chain};

use crate::chains::{after_first, before, joined};
use crate::run_queue::{Chain, RunQueue};
use crate::vectors::append;
use std::alloc::Global;

// A mark has so much for each number that is ready. The first of them and 1 is less.
const EACH_MARKED: u64 = 1 << 33;

// A mark tells of so many numbers at most.
const MOST_MARKED: u64 = (1 << 31) - 1;

/// How many numbers a mark tells to be ready. Of the mark of a queue these are as many as the queue
/// counts, up to the limit.
pub fn marked(mark: u64) -> u64
    ensures many { result ≡ told_many mark }
    ensures back { (list : Option Chain) (many : ℕ) → IsWithin list (2 ^ 32)
        → mark ≡ mark_of list many → result ≡ counted list many }
{
    mark / EACH_MARKED
}

/// So many lists, of which there is at most one too few.
pub fn cover(waiters: &mut Vec<Option<Chain>>, many: usize)
    requires few { many ≤ length waiters.old.items + 1 }
    requires room { vec_len waiters.old < vec_capacity waiters.old }
    ensures reach { many ≤ length waiters.new.items }
    ensures same { (m : ℕ) → chain_at waiters.new.items m ≡ chain_at waiters.old.items m }
{
    if waiters.len() < many {
        append(waiters, None);
    }
}

// So many lists, where there is memory.
fn lengthen(waiters: &mut Vec<Option<Chain>>, many: usize) -> bool
    ensures reach { result ≡ true → many ≤ length waiters.new.items }
    ensures same { (m : ℕ) → chain_at waiters.new.items m ≡ chain_at waiters.old.items m }
    ensures long { length waiters.old.items ≤ length waiters.new.items }
{
    for _ in waiters.len()..many {
        if waiters.push(None).is_err() {
            return false;
        }
    }
    true
}

impl RunQueue {
    /// No numbers.
    pub fn new(alloc: Global) -> RunQueue
        ensures { (result.links.items ≡ []) × (result.waiters.items ≡ []) × (result.ready ≡ None)
            × (result.unfinished ≡ 0) }
    {
        RunQueue {
            links: Vec::new(alloc),
            waiters: Vec::new(alloc),
            ready: None,
            unfinished: 0,
            many: 0,
        }
    }

    /// Room for one more number. `false` is want of memory.
    pub fn reserve(&mut self) -> bool
        ensures same { KeepsLists self.old self.new }
        ensures long { length self.new.waiters.items ≡ length self.old.waiters.items }
        ensures room { result ≡ true → (vec_len self.new.links < vec_capacity self.new.links)
            × (vec_len self.new.waiters < vec_capacity self.new.waiters) }
    {
        self.links.try_reserve(1).is_ok() && self.waiters.try_reserve(1).is_ok()
    }

    /// A number that stands in no list is ready, and the first of those.
    pub fn put_first(&mut self, number: u32)
        requires { number < length self.old.links.items }
        ensures lists { Adds self.old self.new number }
        ensures same { (self.new.unfinished ≡ self.old.unfinished) × IsAsLong self.old self.new }
    {
        let chain = before(&mut self.links, number, self.ready);
        self.ready = Some(chain);
        self.many = self.many.saturating_add(1);
    }

    /// Whether this number is the first of those that are ready.
    pub fn comes_first(&self, number: u32) -> bool
        ensures { result ≡ is_first self.now.ready number }
    {
        match self.ready {
            None => false,
            Some(chain) => chain.first == number,
        }
    }

    /// The first number that is ready, which is then ready no more.
    pub fn take(&mut self) -> Option<u32>
        requires { IsWithin self.old.ready (length self.old.links.items) }
        ensures lists { Takes self.old self.new result }
        ensures first { first_in self.old.ready ≡ result }
        ensures same { (self.new.unfinished ≡ self.old.unfinished) × IsAsLong self.old self.new }
    {
        let chain = self.ready?;
        self.ready = after_first(self.links.as_slice(), chain);
        self.many = self.many.saturating_sub(1);
        Some(chain.first)
    }

    /// The first number that is ready and how many the queue counts to be, up to `MOST_MARKED`, as
    /// one number, or 0 where none is.
    pub fn counted_mark(&self) -> u64
        ensures is { result ≡ mark_of self.now.ready self.now.many }
        ensures first { told_first result ≡ first_in self.now.ready }
        ensures many { told_many result ≡ counted self.now.ready self.now.many }
    {
        match self.ready {
            None => 0,
            Some(chain) => self.many.min(MOST_MARKED) * EACH_MARKED + (chain.first as u64 + 1),
        }
    }

    /// A list of what waits for this number, also where there is no such number yet. `false` is
    /// want of memory.
    pub fn reach(&mut self, on: u32) -> bool
        ensures reach { result ≡ true → on < length self.new.waiters.items }
        ensures same { KeepsLists self.old self.new }
        ensures links { self.new.links ≡ self.old.links }
    {
        lengthen(&mut self.waiters, on as usize + 1)
    }

    // Those that wait for this number.
    fn waiting_for(&self, number: u32) -> Option<Chain>
        requires { number < length self.now.waiters.items }
        ensures { result ≡ chain_at self.now.waiters.items number }
    {
        self.waiters[number as usize]
    }

    /// The number waits for the end of the other.
    pub fn wait(&mut self, number: u32, on: u32)
        requires { (number < length self.old.links.items) × (on < length self.old.waiters.items) }
        ensures lists { Waits self.old self.new number on }
        ensures same { (self.new.unfinished ≡ self.old.unfinished) × IsAsLong self.old self.new }
    {
        let waiting = self.waiting_for(on);
        let chain = before(&mut self.links, number, waiting);
        self.waiters[on as usize] = Some(chain);
    }

    /// All that wait for this number are ready, before those that were.
    fn wake(&mut self, number: u32)
        requires { (number < length self.old.waiters.items)
            × IsWithin (chain_at self.old.waiters.items number) (length self.old.links.items) }
        ensures lists { Wakes self.old self.new number }
        ensures same { (self.new.unfinished ≡ self.old.unfinished) × IsAsLong self.old self.new }
    {
        if let Some(woken) = self.waiting_for(number) {
            let chain = joined(&mut self.links, woken, self.ready);
            self.ready = Some(chain);
            self.waiters[number as usize] = None;
            self.many = self.many.saturating_add(1);
        }
    }

    /// The number has ended. What waited for it is ready, before what was.
    pub fn end(&mut self, number: u32)
        requires within { (number < length self.old.waiters.items)
            × IsWithin (chain_at self.old.waiters.items number) (length self.old.links.items) }
        requires some { 0 < self.old.unfinished }
        ensures { EndsOne self.old self.new number }
    {
        self.wake(number);
        self.unfinished -= 1;
    }
}
