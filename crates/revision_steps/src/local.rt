//! The local state of a revision.

ghost use Rattle.std.specs.Prelude.{◌≡◌, ◌↔◌, IfOk, OnOk, IsTrue, None, Some, map};
ghost use Rattle.std.specs.Prelude.{option_copied};
ghost use Rattle.revision_calculus.specs.Calculus as calculus;
ghost use Rattle.revision_calculus.specs.State as state;
ghost use Rattle.revision_calculus.specs.Step as step;
ghost use Rattle.revision_calculus.specs.Evaluation as evaluation;
ghost use Rattle.revision_state.specs.Phases as phases;
ghost use Rattle.revision_state.specs.Phases.{IsEnded, awaited, trap_in};
ghost use Rattle.revision_state.specs.Ends.{ended_with, phase_of};
ghost use Rattle.revision_steps.specs.Owns.{own_event};
ghost use Rattle.revision_state.specs.Views.{given};

use crate::own::Own;
use rev_num::{Cause, Path, Trap, Value};
use revision_data::{Location, Text, copy_locations, write_at};
use revision_state::{ForkOrJoin, Frames, Phase, Setting, copy_noted, start_locations};
use std::alloc::{AllocError, Global};
use std::marker::Model;

/// The local state of a revision. Contracts see the calculus' local state.
#[derive(Drop)]
pub struct Local<'a> {
    pub(crate) locations: Vec<Location>,
    pub(crate) frames: Frames<'a>,
    pub(crate) fuel: u64,
    pub(crate) forks: u32,
    pub(crate) noted: Vec<ForkOrJoin>,
    pub(crate) text: Text,
    pub(crate) line: u32,
    pub(crate) phase: Phase<'a>,
}

impl<'a> Model for Local<'a> {
    ghost use Rattle.std.specs.Prelude.{map};
    ghost use Rattle.revision_calculus.specs.State as state;
    ghost use Rattle.revision_state.specs.LocalCodes.{coded_local};
    ghost use Rattle.revision_state.specs.Phases as phases;

    ghost Value = { state.Local };

    ghost coded = { coded_local };

    ghost view = { λ l. record {
      locations = l.locations.items;
      frames = l.frames;
      fuel = l.fuel;
      forks = l.forks;
      noted = map phases.noted l.noted.items;
      text = l.text;
      line = l.line;
      phase = phases.phase l.phase;
    } };
}

/// What a revision is about that has trapped so, or is done.
fn phase_by<'a>(trap: Option<Trap>) -> Phase<'a>
    ensures { phases.phase result ≡ phase_of trap }
{
    match trap {
        None => Phase::Done,
        Some(trap) => Phase::Trapped(trap),
    }
}

impl<'a> Local<'a> {
    /// `main` with this fuel, before its first statement.
    pub fn first(alloc: Global, setting: &Setting<'a>, fuel: u64) -> Result<Local<'a>, AllocError>
        ensures { IfOk result (λ l. l ≡ calculus.main (given setting.now) fuel) }
    {
        let frame = setting.main_frame(alloc)?;
        Ok(Local {
            locations: start_locations(alloc, setting.typed)?,
            frames: Frames::of(alloc, frame)?,
            fuel,
            forks: 0,
            noted: Vec::new(alloc),
            text: Text::new(alloc),
            line: 0,
            phase: Phase::Running,
        })
    }

    /// A revision that has ended, as far as a join sees it: with these locations, this text, this
    /// fuel and this trap, or none where it is done.
    pub fn ended(
        alloc: Global,
        locations: Vec<Location>,
        text: Vec<u8>,
        fuel: u64,
        trap: Option<Trap>,
    ) -> Result<Local<'a>, AllocError>
        ensures { IfOk result (λ l. l ≡ ended_with locations.items text.items fuel trap) }
    {
        Ok(Local {
            locations,
            frames: Frames::none(alloc),
            fuel,
            forks: 0,
            noted: Vec::new(alloc),
            text: Text::of(alloc, text)?,
            line: 0,
            phase: phase_by(trap),
        })
    }

    /// The fuel that the revision has left.
    pub fn fuel(&self) -> u64
        ensures { result ≡ self.now.fuel }
    {
        self.fuel
    }

    /// How many forks the revision has made.
    pub fn forks(&self) -> u32
        ensures { result ≡ self.now.forks }
    {
        self.forks
    }

    /// What the revision printed, copied into one piece.
    pub fn text(&self, alloc: Global) -> Result<Vec<u8>, AllocError>
        ensures { IfOk result (λ text. text.items ≡ self.now.text) }
    {
        self.text.to_vec(alloc)
    }

    /// The forks and joins of the revision, in their order.
    pub fn noted(&self) -> &[ForkOrJoin]
        ensures { map phases.noted result.now ≡ self.now.noted }
    {
        self.noted.as_slice()
    }

    /// Whether the revision is done or trapped.
    pub fn has_ended(&self) -> bool
        ensures { IsTrue result ↔ IsEnded self.now.phase }
    {
        self.phase.has_ended()
    }

    /// The path of the revision that is joined, at a join.
    pub fn awaited(&self) -> Option<&Path>
        ensures { option_copied result ≡ awaited self.now.phase }
    {
        self.phase.awaited()
    }

    /// The trap of a revision that trapped.
    pub fn trap(&self) -> Option<&Trap>
        ensures { option_copied result ≡ trap_in self.now.phase }
    {
        self.phase.trap()
    }

    /// What the revision sees at each location, and what it wrote there.
    pub fn locations(&self) -> &[Location]
        ensures { result.now ≡ self.now.locations }
    {
        self.locations.as_slice()
    }

    /// The revision traps with this cause, at the line charged last.
    pub(crate) fn fail(
        &mut self,
        alloc: Global,
        path: &Path,
        cause: Cause,
    ) -> Result<Own<'a>, AllocError>
        ensures { IfOk result
            (λ n. own_event n self.new ≡ step.traps path.now self.old cause) }
    {
        let origin = path.copy(alloc)?;
        self.phase = Phase::Trapped(Trap {
            cause,
            line: self.line,
            origin,
        });
        Ok(Own::Moved)
    }

    /// The value goes to the left side of a `let` or an assignment.
    pub(crate) fn set(
        &mut self,
        setting: &Setting<'a>,
        name: &'a [u8],
        value: Value,
    ) -> Result<(), AllocError>
        ensures { OnOk result
            (self.new ≡ evaluation.set (given setting.now) self.old name.now value) }
    {
        match setting.variable(name) {
            Some(info) => {
                write_at(&mut self.locations, info.base as usize, value);
                Ok(())
            }
            None => self.frames.set_local(name, value),
        }
    }

    /// The value goes to the left side that waits for it, if there are both.
    pub(crate) fn give(
        &mut self,
        setting: &Setting<'a>,
        left: Option<&'a [u8]>,
        value: Option<Value>,
    ) -> Result<(), AllocError>
        ensures { OnOk result
            (self.new
            ≡ evaluation.give (given setting.now) self.old (option_copied left.entry) value) }
    {
        match (left, value) {
            (Some(name), Some(value)) => self.set(setting, name, value),
            _ => Ok(()),
        }
    }

    /// What a revision printed that is done stands in pieces that its joiner can share.
    pub(crate) fn close_text(&mut self, alloc: Global) -> Result<(), AllocError>
        ensures { OnOk result (self.new ≡ self.old) }
    {
        match &self.phase {
            Phase::Done => self.text.close(alloc),
            Phase::Running | Phase::Joining { .. } | Phase::Trapped(_) => Ok(()),
        }
    }

    /// The revision is done.
    pub(crate) fn finish(&mut self)
        ensures { self.new ≡ step.finish self.old }
    {
        self.frames.clear();
        self.phase = Phase::Done;
    }

    /// The frame on top ends with this value or none.
    pub(crate) fn end_frame(
        &mut self,
        setting: &Setting<'a>,
        value: Option<Value>,
    ) -> Result<(), AllocError>
        ensures { OnOk result
            (self.new ≡ step.end_frame (given setting.now) self.old self.old.frames value) }
    {
        match self.frames.pop() {
            None => {
                self.finish();
                Ok(())
            }
            Some(ended) => {
                if self.frames.len() == 0 {
                    self.finish();
                    return Ok(());
                }
                self.give(setting, ended.left(), value)
            }
        }
    }

    /// An equal state.
    pub fn copy(&self, alloc: Global) -> Result<Local<'a>, AllocError>
        ensures { IfOk result (λ l. l ≡ self.now) }
    {
        Ok(Local {
            locations: copy_locations(alloc, &self.locations)?,
            frames: self.frames.copy(alloc)?,
            fuel: self.fuel,
            forks: self.forks,
            noted: copy_noted(alloc, &self.noted)?,
            text: self.text.copy(alloc)?,
            line: self.line,
            phase: self.phase.copy(alloc)?,
        })
    }
}
