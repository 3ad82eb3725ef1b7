//! The frames of a revision, the one on top last.

ghost use Rattle.std.specs.Prelude.{◌≡◌, ◌<◌, IfNone, IfOk, OnOk, MatchOption, Some, [], ◌∷◌};
ghost use Rattle.std.specs.Prelude.{option_copied, option_map, length, slice_get};
ghost use Rattle.rev_syntax.specs.View.{stmt, stmts};
ghost use Rattle.revision_calculus.specs.Step.{append};
ghost use Rattle.revision_calculus.specs.Evaluation as calculus;
ghost use Rattle.revision_state.specs.Remaining.{with_next};

use crate::frame::Frame;
use rev_num::Value;
use rev_syntax::Stmt;
use std::alloc::{AllocError, Global};
use std::marker::Model;

/// The frames of a revision. Contracts see the one on top first.
#[derive(Drop)]
pub struct Frames<'a> {
    frames: Vec<Frame<'a>>,
}

impl<'a> Model for Frames<'a> {
    ghost use Rattle.std.specs.Prelude.{List};
    ghost use Rattle.std.specs.Coded.{coded_list};
    ghost use Rattle.revision_calculus.specs.State as state;
    ghost use Rattle.revision_state.specs.LocalCodes.{coded_frame};
    ghost use Rattle.revision_state.specs.Remaining.{topmost};

    ghost Value = { List state.Frame };

    ghost coded = { coded_list coded_frame };

    ghost view = { λ a. topmost a.frames.items };
}

impl<'a> Frames<'a> {
    /// This frame alone.
    pub fn of(alloc: Global, frame: Frame<'a>) -> Result<Frames<'a>, AllocError>
        ensures { IfOk result (λ a. a ≡ frame.entry ∷ []) }
    {
        let mut frames = Vec::new(alloc);
        frames.push(frame)?;
        Ok(Frames { frames })
    }

    /// No frame.
    pub fn none(alloc: Global) -> Frames<'a>
        ensures { result ≡ [] }
    {
        Frames {
            frames: Vec::new(alloc),
        }
    }

    /// How many frames there are.
    #[tactic(auto, using(crate::proofs::Blocks::length_topmost))]
    pub fn len(&self) -> usize
        ensures { result ≡ length self.now }
    {
        self.frames.len()
    }

    /// The frame on top.
    pub fn top(&self) -> Option<&Frame<'a>>
        ensures { option_copied result ≡ slice_get self.now 0 }
    {
        self.frames.last()
    }

    /// A further frame, on top.
    #[tactic(auto, using(crate::proofs::Blocks::topmost_push))]
    pub fn push(&mut self, frame: Frame<'a>) -> Result<(), AllocError>
        ensures { OnOk result (self.new ≡ frame.entry ∷ self.old) }
    {
        self.frames.push(frame)?;
        Ok(())
    }

    /// Takes out the frame on top, if there is one.
    #[tactic(auto, using(crate::proofs::Blocks::topmost_push))]
    pub fn pop(&mut self) -> Option<Frame<'a>>
        ensures { MatchOption result ((self.old ≡ []) × (self.new ≡ []))
            (λ f. self.old ≡ f ∷ self.new) }
    {
        self.frames.pop()
    }

    /// Takes out all frames.
    pub fn clear(&mut self)
        ensures { self.new ≡ [] }
    {
        self.frames.clear();
    }

    /// The value goes to the local of this name of the frame on top.
    pub fn set_local(&mut self, name: &'a [u8], value: Value) -> Result<(), AllocError>
        ensures { OnOk result
            (self.new ≡ calculus.on_top (λ f. calculus.set_local f name.now value) self.old) }
    {
        match self.pop() {
            None => Ok(()),
            Some(mut top) => {
                top.set_local(name, value)?;
                self.push(top)
            }
        }
    }

    /// The statements of this block come before what the frame on top has still to do.
    pub fn enter(&mut self, block: &'a [Stmt]) -> Result<(), AllocError>
        ensures { OnOk result
            (self.new
            ≡ calculus.on_top (λ f. record f { rest = append (stmts block.now) f.rest }) self.old) }
    {
        match self.pop() {
            None => Ok(()),
            Some(mut top) => {
                top.enter(block)?;
                self.push(top)
            }
        }
    }

    /// Takes the next statement out of the frame on top, if it has one. There is a frame. Where the
    /// frame has none, all is as it was.
    pub fn next(&mut self) -> Result<Option<&'a Stmt>, AllocError>
        requires { 0 < length self.old }
        ensures taken { IfOk result
            (λ found. self.old ≡ with_next (option_map stmt (option_copied found)) self.new) }
        ensures none { IfOk result (λ found. IfNone found (self.new ≡ self.old)) }
    {
        match self.pop() {
            None => Ok(None),
            Some(mut top) => {
                let found = top.next()?;
                self.push(top)?;
                Ok(found)
            }
        }
    }

    /// Equal frames.
    pub fn copy(&self, alloc: Global) -> Result<Frames<'a>, AllocError>
        ensures { IfOk result (λ a. a ≡ self.now) }
    {
        let mut frames = Vec::with_capacity(alloc, self.frames.len())?;
        for frame in &self.frames {
            frames.push(frame.copy(alloc)?)?;
        }
        Ok(Frames { frames })
    }
}
