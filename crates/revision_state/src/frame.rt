//! Frames: the main block or a call that goes on, with its locals and what it still has to do.

ghost use Rattle.std.specs.Prelude.{◌≡◌, IfNone, IfOk, OnOk, None, Some};
ghost use Rattle.std.specs.Prelude.{option_copied, option_map};
ghost use Rattle.rev_syntax.specs.Trees.{no_statements};
ghost use Rattle.rev_syntax.specs.View.{stmt, stmts};
ghost use Rattle.name_tables.specs.Table.{find};
ghost use Rattle.revision_calculus.specs.Step.{append};
ghost use Rattle.revision_calculus.specs.Evaluation as calculus;
ghost use Rattle.revision_state.specs.Remaining.{before, remaining};

use crate::locals::Locals;
use rev_num::Value;
use rev_syntax::Stmt;
use std::alloc::{AllocError, Global};
use std::marker::Model;

/// What is left of a block comes before the others. Nothing is kept of a block that ended.
#[tactic(auto, using(crate::proofs::Blocks::remaining_push, crate::proofs::Blocks::append_ended))]
fn keep<'a>(blocks: &mut Vec<&'a [Stmt]>, others: &'a [Stmt]) -> Result<(), AllocError>
    ensures { OnOk result
        (remaining blocks.new.items ≡ append (stmts others.now) (remaining blocks.old.items)) }
{
    if others.is_empty() {
        return Ok(());
    }
    blocks.push(others)?;
    Ok(())
}

/// Takes the next statement out of these blocks, the last block first, if there is one.
fn next_of<'a>(blocks: &mut Vec<&'a [Stmt]>) -> Result<Option<&'a Stmt>, AllocError>
    ensures taken { IfOk result
        (λ found. remaining blocks.old.items
        ≡ before (option_map stmt (option_copied found)) (remaining blocks.new.items)) }
    ensures none { IfOk result
        (λ found. IfNone found (remaining blocks.new.items ≡ no_statements)) }
{
    while let Some(block) = blocks.pop() {
        if let Some((first, others)) = block.split_first() {
            keep(blocks, others)?;
            return Ok(Some(first));
        }
    }
    Ok(None)
}

/// Statements that are still to be done: blocks of the tree, or what is left of them, the last one
/// first.
#[derive(Drop)]
pub struct Rest<'a> {
    blocks: Vec<&'a [Stmt]>,
}

impl<'a> Model for Rest<'a> {
    ghost use Rattle.rev_syntax.specs.Trees.{Statements};
    ghost use Rattle.revision_state.specs.TreeCodes.{coded_statements};
    ghost use Rattle.revision_state.specs.Remaining.{remaining};

    ghost Value = { Statements };

    ghost coded = { coded_statements };

    ghost view = { λ r. remaining r.blocks.items };
}

impl<'a> Rest<'a> {
    /// The statements of this block.
    #[tactic(auto, using(crate::proofs::Blocks::remaining_one))]
    pub fn of(alloc: Global, block: &'a [Stmt]) -> Result<Rest<'a>, AllocError>
        ensures { IfOk result (λ r. r ≡ stmts block.now) }
    {
        let mut blocks = Vec::new(alloc);
        blocks.push(block)?;
        Ok(Rest { blocks })
    }

    /// The statements of this block come before the others.
    #[tactic(auto, using(crate::proofs::Blocks::remaining_push))]
    pub fn enter(&mut self, block: &'a [Stmt]) -> Result<(), AllocError>
        ensures { OnOk result (self.new ≡ append (stmts block.now) self.old) }
    {
        self.blocks.push(block)?;
        Ok(())
    }

    /// Takes the next statement out, if there is one. Where there is none, none is left.
    pub fn next(&mut self) -> Result<Option<&'a Stmt>, AllocError>
        ensures taken { IfOk result
            (λ found. self.old ≡ before (option_map stmt (option_copied found)) self.new) }
        ensures none { IfOk result (λ found. IfNone found (self.new ≡ no_statements)) }
    {
        next_of(&mut self.blocks)
    }

    /// The same statements.
    pub fn copy(&self, alloc: Global) -> Result<Rest<'a>, AllocError>
        ensures { IfOk result (λ r. r ≡ self.now) }
    {
        let mut blocks = Vec::with_capacity(alloc, self.blocks.len())?;
        for block in &self.blocks {
            blocks.push(*block)?;
        }
        Ok(Rest { blocks })
    }
}

/// The main block or a call that goes on.
#[derive(Drop)]
pub struct Frame<'a> {
    locals: Locals<'a>,
    rest: Rest<'a>,
    left: Option<&'a [u8]>,
}

impl<'a> Model for Frame<'a> {
    ghost use Rattle.std.specs.Prelude.{option_copied};
    ghost use Rattle.revision_calculus.specs.State as state;
    ghost use Rattle.revision_state.specs.LocalCodes.{coded_frame};

    ghost Value = { state.Frame };

    ghost coded = { coded_frame };

    ghost view = { λ f. record {
      locals = f.locals;
      rest = f.rest;
      left = option_copied f.left;
    } };
}

impl<'a> Frame<'a> {
    /// A frame with these locals, in which this block is to be done, and for whose value this left
    /// side waits.
    pub(crate) fn new(
        alloc: Global,
        locals: Locals<'a>,
        block: &'a [Stmt],
        left: Option<&'a [u8]>,
    ) -> Result<Frame<'a>, AllocError>
        ensures { IfOk result
            (λ f. f
            ≡ record {
              locals = locals.entry;
              rest = stmts block.now;
              left = option_copied left.entry;
            }) }
    {
        Ok(Frame {
            locals,
            rest: Rest::of(alloc, block)?,
            left,
        })
    }

    /// The left side that waits for the frame's value, if one does.
    pub fn left(&self) -> Option<&'a [u8]>
        ensures { option_copied result ≡ self.now.left }
    {
        self.left
    }

    /// The value of the local of this name, if there is one.
    pub fn local(&self, name: &[u8]) -> Option<&Value>
        ensures { option_copied result ≡ find name.now self.now.locals }
    {
        self.locals.get(name)
    }

    /// The value goes to the local of this name, which is new if there was none.
    pub fn set_local(&mut self, name: &'a [u8], value: Value) -> Result<(), AllocError>
        ensures { OnOk result (self.new ≡ calculus.set_local self.old name.now value) }
    {
        self.locals.set(name, value)
    }

    /// The statements of this block come before the others.
    pub fn enter(&mut self, block: &'a [Stmt]) -> Result<(), AllocError>
        ensures { OnOk result
            (self.new ≡ record self.old { rest = append (stmts block.now) self.old.rest }) }
    {
        self.rest.enter(block)
    }

    /// Takes the next statement out, if there is one. Where there is none, all is as it was.
    pub fn next(&mut self) -> Result<Option<&'a Stmt>, AllocError>
        ensures taken { IfOk result
            (λ found. self.old
            ≡ record self.new {
              rest = before (option_map stmt (option_copied found)) self.new.rest;
            }) }
        ensures none { IfOk result (λ found. IfNone found (self.new ≡ self.old)) }
    {
        self.rest.next()
    }

    /// An equal frame.
    pub fn copy(&self, alloc: Global) -> Result<Frame<'a>, AllocError>
        ensures { IfOk result (λ f. f ≡ self.now) }
    {
        Ok(Frame {
            locals: self.locals.copy(alloc)?,
            rest: self.rest.copy(alloc)?,
            left: self.left,
        })
    }
}
