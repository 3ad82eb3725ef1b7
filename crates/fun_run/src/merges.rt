//! The merges of all locations.

ghost use Rattle.std.specs.Prelude.{◌≡◌, ◌≤◌, ◌<◌, IfOk, vec_len};
ghost use Rattle.code_soundness.specs.AcceptedCode.{notes_of, IsAccepted};
ghost use Rattle.code_verifier.specs.Verdicts.{KeepsRules};
ghost use Rattle.code_machine.specs.Joining.{merges_of};
ghost use Rattle.block_run.specs.Area.{count, table_from};
ghost use Rattle.fun_run.specs.Merging.{ServesMerges};

use crate::numbers::note_numbers;
use crate::room::{blank_memory, merge_blocks, most_room, put_three};
use crate::{evaluate, rooms_of};
use block_run::{Memory, Variable, table_of};
use code_verifier::Verified;
use rev_code::Code;
use rev_num::NumFault;
use std::alloc::{AllocError, Global};
use version_map::{MergeBy, Whole};

/// The merges of all locations: that of a versioned location gives the joined word, that of a
/// cumulative one the value of its merge block. The words for a block's frame are made once, as
/// many as the code may need, and no merge takes memory.
#[derive(Drop)]
pub struct BlockMerges<'a> {
    code: &'a Code,
    table: Vec<Variable>,
    blocks: Vec<Option<u16>>,
    words: Vec<u64>,
    // The memory that an instruction may name; a merge block reads no location, so its words are blank.
    memory: Memory<Whole>,
    ghost sound: { KeepsRules code.now },
    ghost accepted: { IsAccepted code.now (notes_of code.now) },
    ghost variables: { table.items ≡ table_from 0 code.now.vars },
    ghost listed: { blocks.items ≡ merges_of code.now.vars },
    ghost three: { 3 ≤ vec_len words },
    ghost room: { ServesMerges code.now (vec_len words) },
    ghost locations: { vec_len memory.snapshot.words ≡ count code.now.vars },
}

impl<'a> BlockMerges<'a> {
    ghost use Rattle.code_machine.specs.Local.{CodeRun};
    ghost use Rattle.fun_run.specs.Merging.{AreMergesOf, word_merges};

    /// The merges of verified code.
    pub fn new(alloc: Global, verified: &'a Verified) -> Result<BlockMerges<'a>, AllocError>
        ensures code { IfOk result (λ b. b.code.now ≡ verified.now.code) }
        ensures merges { IfOk result (λ b. (g : CodeRun) → g.code ≡ verified.now.code
            → AreMergesOf g (word_merges b.code.now)) }
    {
        let merges = BlockMerges::of(alloc, verified.code())?;
        Ok(merges)
    }

    /// The merges of code without a fault.
    #[tactic(auto, using(code_soundness::proofs::Accepting::no_fault_accepted))]
    pub fn of(alloc: Global, code: &'a Code) -> Result<BlockMerges<'a>, AllocError>
        requires { KeepsRules code.now }
        ensures code { IfOk result (λ b. b.code.now ≡ code.now) }
        ensures merges { IfOk result (λ b. (g : CodeRun) → g.code ≡ code.now
            → AreMergesOf g (word_merges b.code.now)) }
    {
        note_numbers(code);
        let table = table_of(alloc, code)?;
        let blocks = merge_blocks(alloc, code)?;
        let memory = blank_memory(alloc, blocks.len() as u32)?;
        let rooms = rooms_of(alloc, code)?;
        let most = most_room(rooms.as_slice());
        Ok(BlockMerges {
            code,
            table,
            blocks,
            words: vec![in alloc; 0; most as usize]?,
            memory,
        })
    }
}

impl<'a> MergeBy for BlockMerges<'a> {
    ghost use Rattle.std.specs.Prelude.{false};
    ghost use Rattle.fun_run.specs.Merging.{word_merges};

    ghost size = { λ b. count b.code.now.vars };

    ghost merges = { λ b. word_merges b.code.now };

    // Merge blocks merge one location at a time.
    ghost row = { λ _ _. false };

    fn row_at(&self, _first: u32) -> bool {
        false
    }

    fn merge(&mut self, location: u32, main: u64, join: u64, root: u64) -> Result<u64, NumFault> {
        match self.blocks[location as usize] {
            None => Ok(join),
            Some(n) => {
                let words = self.words.as_mut_slice();
                put_three(words, main, join, root);
                evaluate(
                    self.code,
                    self.table.as_slice(),
                    n,
                    &mut self.memory,
                    words,
                    0,
                )
            },
        }
    }
}
