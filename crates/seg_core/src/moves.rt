//! Each step on the cells.
ghost use Rattle.std.specs.Prelude.{◌≡◌, ℕ, ◌+◌, ◌<◌, suc, Option, [], Some, None};
ghost use Rattle.std.specs.Prelude.{MatchBool};
ghost use Rattle.seg_core.specs.Core.{free, live, At, Has, Counted};
ghost use Rattle.seg_core.specs.Steps as core;
ghost use Rattle.seg_core.specs.Shape.{name_of, list_of, step_of};
ghost use Rattle.seg_core.specs.Cells.{core_of};
ghost use Rattle.seg_core.specs.Applies.{copies, Builds, Makes, Refuses};

use crate::cells::{Cells, HOLDERS};
use crate::segment::{References, Stage};
use crate::step::{Applied, SegStep};

impl Cells {
    fn is_free(&self, segment: u32) -> bool
        ensures { MatchBool result (At (core_of self.now) (suc segment) free)
            (¬ (At (core_of self.now) (suc segment) free)) }
    {
        match self.stage(segment) {
            Some(Stage::Free) => true,
            Some(Stage::Building(_)) => false,
            Some(Stage::Live(..)) => false,
            None => false,
        }
    }

    fn is_built(&self, segment: u32, holder: u32) -> bool
        ensures { MatchBool result (Builds (core_of self.now) (suc segment) holder)
            (¬ (Builds (core_of self.now) (suc segment) holder)) }
    {
        match self.stage(segment) {
            Some(Stage::Building(builder)) => builder == holder,
            Some(Stage::Free) => false,
            Some(Stage::Live(..)) => false,
            None => false,
        }
    }

    // The parent and the count of a live segment.
    fn live(&self, segment: u32) -> Option<(Option<u32>, u64)>
        ensures some { (p : Option ℕ) (n : ℕ) → result ≡ Some (p, n) → (d : ℕ → Option ℕ)
            × At (core_of self.now) (suc segment) (live d (name_of p) n) }
        ensures none { result ≡ None → (d : ℕ → Option ℕ) (p n : ℕ)
            → ¬ (At (core_of self.now) (suc segment) (live d p n)) }
    {
        match self.stage(segment) {
            Some(Stage::Live(parent, count)) => Some((parent, count)),
            Some(Stage::Free) => None,
            Some(Stage::Building(_)) => None,
            None => None,
        }
    }

    // The segment that the holder refers to, or none, where it has at most one reference.
    fn single(&self, holder: u32) -> Option<Option<u32>>
        ensures some { (p : Option ℕ) → result ≡ Some p
            → Has (core_of self.now) holder (core.joined (name_of p) []) }
        ensures none { result ≡ None → (p : ℕ)
            → ¬ (Has (core_of self.now) holder (core.joined p [])) }
    {
        match self.references(holder) {
            Some(References::Empty) => Some(None),
            Some(References::Once(own)) => Some(Some(own)),
            Some(References::Twice(_)) => None,
            None => None,
        }
    }

    // Whether the holder's references are this many to this segment.
    fn refers(&self, holder: u32, segment: u32, times: u32) -> bool
        ensures { MatchBool result (Has (core_of self.now) holder (copies times (suc segment)))
            (¬ (Has (core_of self.now) holder (copies times (suc segment)))) }
    {
        match self.references(holder) {
            Some(References::Empty) => times == 0,
            Some(References::Once(own)) => are_same(own, 1, segment, times),
            Some(References::Twice(own)) => are_same(own, 2, segment, times),
            None => false,
        }
    }

    fn claim(&mut self, holder: u32, segment: u32) -> Applied
        ensures done { Makes self.old (core.claim holder (suc segment)) self.new result }
        ensures refused { Refuses self.old (core.claim holder (suc segment)) self.new result }
    {
        if holder >= HOLDERS {
            return Applied::Refused;
        }
        if !self.is_free(segment) {
            return Applied::Refused;
        }
        if self.builds(holder) {
            return Applied::Refused;
        }
        self.begin(segment, holder);
        Applied::Done
    }

    fn put(&mut self, holder: u32, segment: u32, location: u32, word: u64) -> Applied
        ensures done { Makes self.old (core.put holder (suc segment) location word) self.new
            result }
        ensures refused { Refuses self.old (core.put holder (suc segment) location word) self.new
            result }
    {
        if !self.is_built(segment, holder) {
            return Applied::Refused;
        }
        if location >= self.locations {
            return Applied::Refused;
        }
        self.write(segment, location, word);
        Applied::Done
    }

    fn publish(&mut self, holder: u32, segment: u32) -> Applied
        ensures done { Makes self.old (core.publish holder (suc segment)) self.new result }
        ensures refused { Refuses self.old (core.publish holder (suc segment)) self.new result }
    {
        if !self.is_built(segment, holder) {
            return Applied::Refused;
        }
        match self.single(holder) {
            None => Applied::Refused,
            Some(parent) => {
                self.turn(segment, Stage::Live(parent, 2));
                self.refer(holder, References::Twice(segment));
                Applied::Done
            },
        }
    }

    fn share(&mut self, holder: u32, segment: u32) -> Applied
        requires { Counted (core_of self.old) }
        ensures done { Makes self.old (core.share holder (suc segment)) self.new result }
        ensures refused { Refuses self.old (core.share holder (suc segment)) self.new result }
    {
        if !self.refers(holder, segment, 1) {
            return Applied::Refused;
        }
        match self.live(segment) {
            None => Applied::Refused,
            Some((parent, count)) => {
                self.turn(segment, Stage::Live(parent, count + 1));
                self.refer(holder, References::Twice(segment));
                Applied::Done
            },
        }
    }

    // The segment gets free, and its parent, if any, is what the holder refers to.
    fn free(&mut self, holder: u32, segment: u32, parent: Option<u32>)
        requires live { (d : ℕ → Option ℕ) × (n : ℕ)
            × At (core_of self.old) (suc segment) (live d (name_of parent) n) }
        requires inside { holder < 65536 }
        ensures { core_of self.new ≡ core.list_to
            (core.seg_to (core_of self.old) (suc segment) free) holder
            (core.joined (name_of parent) []) }
    {
        self.turn(segment, Stage::Free);
        self.refer(holder, to_parent(parent));
    }

    // A release of a live segment with this parent and this count.
    fn give_up(&mut self, holder: u32, segment: u32, parent: Option<u32>, count: u64) -> Applied
        requires live { (d : ℕ → Option ℕ)
            × At (core_of self.old) (suc segment) (live d (name_of parent) count) }
        requires counted { Counted (core_of self.old) }
        ensures done { Makes self.old (core.release holder (suc segment)) self.new result }
        ensures refused { Refuses self.old (core.release holder (suc segment)) self.new result }
    {
        if self.refers(holder, segment, 2) {
            self.turn(segment, Stage::Live(parent, count - 1));
            self.refer(holder, References::Once(segment));
            return Applied::Done;
        }
        if !self.refers(holder, segment, 1) {
            return Applied::Refused;
        }
        if count == 1 {
            self.free(holder, segment, parent);
            return Applied::Done;
        }
        self.turn(segment, Stage::Live(parent, count - 1));
        self.refer(holder, References::Empty);
        Applied::Done
    }

    fn release(&mut self, holder: u32, segment: u32) -> Applied
        requires { Counted (core_of self.old) }
        ensures done { Makes self.old (core.release holder (suc segment)) self.new result }
        ensures refused { Refuses self.old (core.release holder (suc segment)) self.new result }
    {
        match self.live(segment) {
            None => Applied::Refused,
            Some((parent, count)) => self.give_up(holder, segment, parent, count),
        }
    }

    fn collapse(&mut self, holder: u32, segment: u32) -> Applied
        ensures done { Makes self.old (core.collapse holder (suc segment)) self.new result }
        ensures refused { Refuses self.old (core.collapse holder (suc segment)) self.new result }
    {
        if !self.refers(holder, segment, 1) {
            return Applied::Refused;
        }
        match self.live(segment) {
            None => Applied::Refused,
            Some((parent, count)) => {
                if count != 1 {
                    return Applied::Refused;
                }
                self.free(holder, segment, parent);
                Applied::Done
            },
        }
    }

    fn hand_on(&mut self, holder: u32, segment: u32, to: u32) -> Applied
        ensures done { Makes self.old (core.hand_on holder (suc segment) to) self.new result }
        ensures refused { Refuses self.old (core.hand_on holder (suc segment) to) self.new result }
    {
        if to == holder {
            return Applied::Refused;
        }
        if !self.refers(holder, segment, 2) {
            return Applied::Refused;
        }
        if !self.refers(to, segment, 0) {
            return Applied::Refused;
        }
        if self.builds(to) {
            return Applied::Refused;
        }
        self.refer(holder, References::Once(segment));
        self.refer(to, References::Once(segment));
        Applied::Done
    }

    /// Makes the step, where it can be made.
    pub fn apply(&mut self, step: &SegStep) -> Applied
        requires { Counted (core_of self.old) }
        ensures done { Makes self.old (step_of step.now) self.new result }
        ensures refused { Refuses self.old (step_of step.now) self.new result }
    {
        match *step {
            SegStep::Claim { holder, segment } => self.claim(holder, segment),
            SegStep::Put {
                holder,
                segment,
                location,
                word,
            } => { self.put(holder, segment, location, word) },
            SegStep::Publish { holder, segment } => self.publish(holder, segment),
            SegStep::Share { holder, segment } => self.share(holder, segment),
            SegStep::Release { holder, segment } => self.release(holder, segment),
            SegStep::Collapse { holder, segment } => self.collapse(holder, segment),
            SegStep::HandOn {
                holder,
                segment,
                to,
            } => self.hand_on(holder, segment, to),
        }
    }
}

// The references of a holder whose one segment got free.
fn to_parent(parent: Option<u32>) -> References
    ensures { list_of result ≡ core.joined (name_of parent) [] }
{
    match parent {
        Some(own) => References::Once(own),
        None => References::Empty,
    }
}

// Whether both are as many references to the same segment, of which there are some.
fn are_same(own: u32, have: u32, segment: u32, times: u32) -> bool
    requires { 0 < have }
    ensures { MatchBool result (copies have (suc own) ≡ copies times (suc segment))
        (¬ (copies have (suc own) ≡ copies times (suc segment))) }
{
    if have != times {
        return false;
    }
    own == segment
}
