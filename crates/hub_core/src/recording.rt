//! How records change. Of a revision without a record a seat keeps it, or it was joined.
ghost use Rattle.std.specs.Prelude.{◌≡◌, ◌<◌, ◌≤◌, ◌+◌, ◌^◌, ℕ, List, [], ◌∷◌, length, true, false};
ghost use Rattle.std.specs.Prelude.{Some, None, MatchOption, IfOk, IfErr, OnOk, vec_len, vec_capacity};
ghost use Rattle.revision_machine.specs.Numbered.{at_number, put_number};
ghost use Rattle.hub_core.specs.declared.status.Status.TheVariants.{Ready, Out, Waiting, Over, Gone};
ghost use Rattle.hub_core.specs.Chains.{KeepsLists, HasLists, IsAsLong, Adds, EndsOne, ReadiesOne};
ghost use Rattle.hub_core.specs.Chains.{DelaysOne, HasOne};
ghost use Rattle.hub_core.specs.Found.{ended_here};
ghost use Rattle.hub_core.specs.declared.status.Status.{Status};
ghost use Rattle.hub_core.specs.Chains.{IsWithin, chain_at};
ghost use Rattle.hub_core.specs.Tally.{record_at};
ghost use Rattle.hub_core.specs.Recorded.{put_record, IsReadyFirst, IsLonger};

use crate::records::Records;
use crate::run_queue::RunQueue;
use crate::status::Status;
use crate::vectors::{append, empty};
use std::alloc::Global;
use std::mem;

impl<R, A, E> Records<R, A, E> {
    /// None, with no room.
    pub fn new(alloc: Global) -> Records<R, A, E>
        ensures none { result.list.items ≡ [] }
        ensures queue { (result.queue.links.items ≡ []) × (result.queue.waiters.items ≡ [])
            × (result.queue.ready ≡ None) × (result.queue.unfinished ≡ 0) }
    {
        Records {
            list: Vec::new(alloc),
            queue: RunQueue::new(alloc),
            kept: Vec::new(alloc),
        }
    }

    /// The first revision alone, which is ready. The runner comes back for want of memory.
    pub fn one(alloc: Global, first: R) -> Result<Records<R, A, E>, R>
        ensures ok { IfOk result (λ s. s.list.items ≡ Some (Ready first) ∷ []) }
        ensures queue { IfOk result (λ s. HasOne s.queue) }
        ensures err { IfErr result (λ r. r ≡ first) }
    {
        let mut records = Records::new(alloc);
        if !records.lengthen() {
            records.free();
            return Err(first);
        }
        records.bear(0, first);
        Ok(records)
    }

    /// Ends what has none.
    pub fn free(self)
        requires { self.list.items ≡ [] }
    {
        let Records {
            list,
            queue: _,
            kept,
        } = self;
        list.destroy_empty();
        kept.destroy_empty();
    }

    /// The runner of a hub that was not opened.
    pub fn into_first(mut self) -> R
        requires { IsReadyFirst self.list.items }
        ensures { self.list.items ≡ Some (Ready result) ∷ [] }
    {
        match self.list.pop() {
            Some(Some(Status::Ready(first))) => {
                self.free();
                first
            },
            other => {
                empty(other);
                unreachable!()
            },
        }
    }

    // Room for one more place, for what the close leaves too.
    fn reserve(&mut self) -> bool
        ensures list { self.new.list.items ≡ self.old.list.items }
        ensures queue { KeepsLists self.old.queue self.new.queue }
        ensures long { length self.new.queue.waiters.items ≡ length self.old.queue.waiters.items }
        ensures space { result ≡ true
            → (vec_len self.new.queue.links < vec_capacity self.new.queue.links)
            × (vec_len self.new.queue.waiters < vec_capacity self.new.queue.waiters) }
        ensures room { result ≡ true → (vec_len self.new.list < vec_capacity self.new.list)
            × (vec_len self.new.list < vec_capacity self.new.kept)
            × (vec_len self.new.list < 2 ^ 32) }
    {
        if !self.queue.reserve() {
            return false;
        }
        let more = self.list.len() + 1;
        more <= 4_294_967_296
            && self.list.try_reserve(1).is_ok()
            && self.kept.try_reserve(more).is_ok()
    }

    // One more place, where there is memory.
    fn lengthen(&mut self) -> bool
        requires queue { (length self.old.queue.links.items ≡ length self.old.list.items)
            × (length self.old.list.items ≤ length self.old.queue.waiters.items) }
        ensures longer { IsLonger self.old.queue self.new.queue self.old.list.items
            self.new.list.items }
        ensures one { result ≡ true
            → length self.new.list.items ≡ length self.old.list.items + 1 }
        ensures none { result ≡ false → self.new.list.items ≡ self.old.list.items }
    {
        if !self.reserve() {
            return false;
        }
        append(&mut self.list, None);
        self.queue.make_place();
        true
    }

    // What stood at this place, where another record comes.
    fn swap(&mut self, number: u32, new: Status<R, A, E>) -> Option<Status<R, A, E>>
        requires { number < length self.old.list.items }
        ensures was { at_number self.old.list.items number ≡ Some result }
        ensures now { self.new.list.items ≡ put_number self.old.list.items number (Some new) }
        ensures queue { self.new.queue ≡ self.old.queue }
    {
        mem::replace(&mut self.list[number as usize], Some(new))
    }

    /// The record of a revision that has one, in whose place another comes.
    pub fn exchange(&mut self, number: u32, new: Status<R, A, E>) -> Status<R, A, E>
        requires { (x : Status R A E) × (record_at self.old.list.items number ≡ Some x) }
        ensures was { record_at self.old.list.items number ≡ Some result }
        ensures now { self.new.list.items ≡ put_record self.old.list.items number new }
        ensures queue { self.new.queue ≡ self.old.queue }
    {
        self.swap(number, new).unwrap()
    }

    // Another record of a revision that seats have.
    fn put_back(&mut self, number: u32, new: Status<R, A, E>)
        requires { record_at self.old.list.items number ≡ Some Out }
        ensures now { self.new.list.items ≡ put_record self.old.list.items number new }
        ensures queue { self.new.queue ≡ self.old.queue }
    {
        match self.exchange(number, new) {
            Status::Out => {},
            other => empty(Some(other)),
        }
    }

    /// The record of a child that a seat kept.
    pub fn record_kept(&mut self, number: u32)
        requires none { record_at self.old.list.items number ≡ None }
        requires within { number < length self.old.list.items }
        ensures now { self.new.list.items ≡ put_record self.old.list.items number Out }
        ensures queue { self.new.queue ≡ self.old.queue }
    {
        empty(self.swap(number, Status::Out));
    }

    /// The record of the child of a fork, which is ready.
    pub fn bear(&mut self, number: u32, child: R)
        requires none { record_at self.old.list.items number ≡ None }
        requires within { (number < length self.old.list.items)
            × (number < length self.old.queue.links.items) }
        requires few { self.old.queue.unfinished ≤ 4294967296 }
        ensures now { self.new.list.items
            ≡ put_record self.old.list.items number (Ready child) }
        ensures queue { Adds self.old.queue self.new.queue number
            × (self.new.queue.unfinished ≡ self.old.queue.unfinished + 1)
            × IsAsLong self.old.queue self.new.queue }
    {
        self.queue.put_first(number);
        self.queue.begin_one();
        empty(self.swap(number, Status::Ready(child)));
    }

    /// A revision that a seat had, and that is before its leg, is ready again.
    pub fn hand_back(&mut self, number: u32, runner: R)
        requires out { record_at self.old.list.items number ≡ Some Out }
        requires queue { number < length self.old.queue.links.items }
        ensures now { self.new.list.items
            ≡ put_record self.old.list.items number (Ready runner) }
        ensures queue { ReadiesOne self.old.queue self.new.queue number }
    {
        self.queue.put_first(number);
        self.put_back(number, Status::Ready(runner));
    }

    /// The end of a revision that a seat had. What waits for it is ready.
    pub fn end(&mut self, number: u32, end: E)
        requires out { record_at self.old.list.items number ≡ Some Out }
        requires within { (number < length self.old.queue.waiters.items)
            × IsWithin (chain_at self.old.queue.waiters.items number)
            (length self.old.queue.links.items) }
        requires some { 0 < self.old.queue.unfinished }
        ensures now { self.new.list.items ≡ put_record self.old.list.items number (Over end) }
        ensures queue { EndsOne self.old.queue self.new.queue number }
    {
        self.queue.end(number);
        self.put_back(number, Status::Over(end));
    }

    /// A revision that a seat had has ended, and was joined. What waits for its end is ready.
    pub fn end_joined(&mut self, number: u32)
        requires out { record_at self.old.list.items number ≡ Some Out }
        requires within { (number < length self.old.queue.waiters.items)
            × IsWithin (chain_at self.old.queue.waiters.items number)
            (length self.old.queue.links.items) }
        requires some { 0 < self.old.queue.unfinished }
        ensures now { self.new.list.items ≡ put_record self.old.list.items number Gone }
        ensures queue { EndsOne self.old.queue self.new.queue number }
    {
        self.queue.end(number);
        self.put_back(number, Status::Gone);
    }

    /// A place for the record of this number, where there is memory.
    pub fn reach(&mut self, number: u32) -> bool
        requires queue { (length self.old.queue.links.items ≡ length self.old.list.items)
            × (length self.old.list.items ≤ length self.old.queue.waiters.items) }
        ensures longer { IsLonger self.old.queue self.new.queue self.old.list.items
            self.new.list.items }
        ensures reach { result ≡ true → number < length self.new.list.items }
    {
        for _ in self.list.len()..number as usize + 1 {
            if !self.lengthen() {
                return false;
            }
        }
        true
    }

    /// A joiner that a seat had waits for the end of the revision `on`. For want of memory it comes
    /// back, and the records are as they were.
    pub fn keep(&mut self, number: u32, at: A, on: u32) -> Result<(), A>
        requires out { record_at self.old.list.items number ≡ Some Out }
        requires queue { number < length self.old.queue.links.items }
        ensures ok { OnOk result
            ((self.new.list.items ≡ put_record self.old.list.items number (Waiting at))
            × DelaysOne self.old.queue self.new.queue number on) }
        ensures err { IfErr result (λ a. (a ≡ at)
            × (self.new.list.items ≡ self.old.list.items)
            × KeepsLists self.old.queue self.new.queue) }
    {
        if !self.queue.reach(on) {
            return Err(at);
        }
        self.queue.wait(number, on);
        self.put_back(number, Status::Waiting(at));
        Ok(())
    }

    /// The end of a revision that has ended, which is joined by this; or none, where it was before.
    pub fn join(&mut self, number: u32) -> Option<E>
        requires { ended_here (record_at self.old.list.items number) ≡ true }
        ensures joined { MatchOption result
            ((record_at self.old.list.items number ≡ Some Gone)
            × (self.new.list.items ≡ self.old.list.items))
            (λ e. (record_at self.old.list.items number ≡ Some (Over e))
            × (self.new.list.items ≡ put_record self.old.list.items number Gone)) }
        ensures queue { self.new.queue ≡ self.old.queue }
    {
        match self.exchange(number, Status::Gone) {
            Status::Over(end) => Some(end),
            Status::Gone => None,
            other => {
                empty(Some(other));
                unreachable!()
            },
        }
    }
}
