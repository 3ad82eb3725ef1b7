//! The revisions of a world, by number.

ghost use Rattle.std.specs.Prelude.{◌≡◌, ◌<◌, ◌+◌, ◌∷◌, ◌++◌, ◌^◌, [], IfOk, OnOk, Some, length};
ghost use Rattle.revision_machine.specs.Numbered.{at_number, put_number};
ghost use Rattle.code_world.specs.declared.slot.WorldSlot.TheVariants as slot;
ghost use Rattle.code_world.specs.Turns.{IsStage, born};

use crate::lists::swap;
use crate::slot::WorldSlot;
use rev_vm::{AtJoin, Runner, Spares};
use std::alloc::{AllocError, Global};
use version_map::{EndValue, Whole};

/// Where a revision comes from: its forker, the place among its forker's forks, counted from 0, and
/// how many forks it has made itself. `main` has 0 for its forker and its place.
#[derive(Clone, Copy)]
pub struct Birth {
    pub forker: u32,
    pub place: u32,
    pub forks: u32,
}

/// The revisions of a world, in the order of their forks, with what those that have ended left of
/// their memory to those that begin.
pub struct Table {
    pub(crate) slots: Vec<WorldSlot>,
    pub(crate) births: Vec<Birth>,
    pub(crate) spares: Spares,
}

/// How far a revision is.
#[derive(Clone, Copy)]
pub enum Stage {
    Running,
    Standing { on: u32 },
    Ended,
    Joined,
    NoSuch,
}

impl Table {
    /// How far the revision of this number is.
    pub(crate) fn stage(&self, number: usize) -> Stage
        ensures { IsStage (at_number self.now.slots.items number) result }
    {
        match self.slots.get(number) {
            None => Stage::NoSuch,
            Some(WorldSlot::Taken) => Stage::NoSuch,
            Some(WorldSlot::Running(_)) => Stage::Running,
            Some(WorldSlot::Standing(at)) => Stage::Standing { on: at.on() },
            Some(WorldSlot::Ended(_)) => Stage::Ended,
            Some(WorldSlot::Joined(_)) => Stage::Joined,
        }
    }

    /// Lets all revisions go.
    pub fn give_up(self) {
        let Table {
            slots,
            births: _,
            spares: _,
        } = self;
        let mut rest = slots.into_iter();
        while let Some(slot) = rest.next() {
            slot.give_up();
        }
        rest.destroy_empty();
    }

    /// A running revision, which is taken out of the table.
    pub(crate) fn take_runner(&mut self, number: usize) -> Runner<Whole>
        requires { (r : _) × (at_number self.old.slots.items number ≡ Some (slot.Running r)) }
        ensures was { at_number self.old.slots.items number ≡ Some (slot.Running result) }
        ensures now { self.new.slots.items ≡ put_number self.old.slots.items number slot.Taken }
        ensures births { self.new.births ≡ self.old.births }
    {
        match swap(&mut self.slots, number, WorldSlot::Taken) {
            WorldSlot::Running(runner) => runner,
            other => {
                other.give_up();
                unreachable!()
            },
        }
    }

    /// A joiner, which is taken out of the table.
    pub(crate) fn take_joiner(&mut self, number: usize) -> AtJoin<Whole>
        requires { (a : _) × (at_number self.old.slots.items number ≡ Some (slot.Standing a)) }
        ensures was { at_number self.old.slots.items number ≡ Some (slot.Standing result) }
        ensures now { self.new.slots.items ≡ put_number self.old.slots.items number slot.Taken }
        ensures births { self.new.births ≡ self.old.births }
    {
        match swap(&mut self.slots, number, WorldSlot::Taken) {
            WorldSlot::Standing(at) => at,
            other => {
                other.give_up();
                unreachable!()
            },
        }
    }

    /// What a revision left, which is taken out of the table.
    pub(crate) fn take_end(&mut self, number: usize) -> EndValue
        requires { (v : _) × (at_number self.old.slots.items number ≡ Some (slot.Ended v)) }
        ensures was { at_number self.old.slots.items number ≡ Some (slot.Ended result) }
        ensures now { self.new.slots.items ≡ put_number self.old.slots.items number slot.Taken }
        ensures births { self.new.births ≡ self.old.births }
    {
        match swap(&mut self.slots, number, WorldSlot::Taken) {
            WorldSlot::Ended(end) => end,
            other => {
                other.give_up();
                unreachable!()
            },
        }
    }

    /// What a revision left, once more.
    fn copied_end(&self, alloc: Global, number: usize) -> Result<EndValue, AllocError>
        requires { (v : _) × (at_number self.now.slots.items number ≡ Some (slot.Ended v)) }
        ensures { IfOk result
            (λ v. at_number self.now.slots.items number ≡ Some (slot.Ended v)) }
    {
        match self.slots.get(number) {
            Some(WorldSlot::Ended(end)) => end.copied(alloc),
            _ => unreachable!(),
        }
    }

    /// What a revision left, which is joined by this: the table keeps a copy.
    pub(crate) fn join_end(&mut self, alloc: Global, number: usize) -> Result<EndValue, AllocError>
        requires { (v : _) × (at_number self.old.slots.items number ≡ Some (slot.Ended v)) }
        ensures was { IfOk result
            (λ v. at_number self.old.slots.items number ≡ Some (slot.Ended v)) }
        ensures now { IfOk result (λ v.
            self.new.slots.items ≡ put_number self.old.slots.items number (slot.Joined v)) }
        ensures births { self.new.births ≡ self.old.births }
    {
        let copy = self.copied_end(alloc, number)?;
        match swap(&mut self.slots, number, WorldSlot::Joined(copy)) {
            WorldSlot::Ended(end) => Ok(end),
            other => {
                other.give_up();
                unreachable!()
            },
        }
    }

    /// What the table has of a revision from now on.
    pub(crate) fn put(&mut self, number: usize, new: WorldSlot)
        requires { number < length self.old.slots.items }
        ensures now { self.new.slots.items ≡ put_number self.old.slots.items number new }
        ensures births { self.new.births ≡ self.old.births }
    {
        swap(&mut self.slots, number, new).give_up();
    }

    /// A forker behind its Fork, and its child, which comes last.
    pub(crate) fn bear(
        &mut self,
        number: u32,
        forker: Runner<Whole>,
        kid: Runner<Whole>,
    ) -> Result<(), AllocError>
        requires slots { number < length self.old.slots.items }
        requires births { number < length self.old.births.items }
        requires few { (b : Birth) → at_number self.old.births.items number ≡ Some b
            → b.forks + 1 < 2 ^ 32 }
        ensures slots { OnOk result (self.new.slots.items
            ≡ put_number self.old.slots.items number (slot.Running forker)
            ++ slot.Running kid ∷ []) }
        ensures births { OnOk result ((b : Birth)
            × (at_number self.old.births.items number ≡ Some b)
            × (self.new.births.items ≡ born self.old.births.items number b)) }
    {
        self.put(number as usize, WorldSlot::Running(forker));
        let birth = self.births[number as usize];
        self.births[number as usize] = Birth {
            forks: birth.forks + 1,
            ..birth
        };
        let child = Birth {
            forker: number,
            place: birth.forks,
            forks: 0,
        };
        match self.slots.push(WorldSlot::Running(kid)) {
            Ok(()) => {},
            Err(failed) => {
                failed.value.give_up();
                return Err(AllocError);
            },
        }
        self.births.push(child)?;
        Ok(())
    }
}
