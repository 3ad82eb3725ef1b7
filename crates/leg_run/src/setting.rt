//! What a program runs under.

ghost use Rattle.std.specs.Prelude.{◌≡◌, ◌<◌, IfOk, None, Some, length, slice_get};
ghost use Rattle.rev_code.specs.declared.code.CodeBlock.{CodeBlock};
ghost use Rattle.code_rules.specs.Verdict.{first_fault};
ghost use Rattle.block_run.specs.Agreement.{AreInputs};
ghost use Rattle.block_run.specs.Area.{table_from};
ghost use Rattle.fun_run.specs.Rooms.{AreRooms, IsRoom, are_rooms_prop};

use block_run::{Variable, table_of};
use fun_run::{block_at, rooms_of};
use rev_code::{Code, CodeBlock};
use std::alloc::{AllocError, Global};

/// The room of a block that is in the table.
fn room_at(rooms: &[u32], n: u16) -> usize
    requires { n < length rooms.now }
    ensures { slice_get rooms.now n ≡ Some result }
{
    rooms[n as usize] as usize
}

/// Code without a fault, with where its shared variables lie and how many words the frames of each
/// block need; the input numbers; and the most fuel that a child gets.
#[derive(Drop)]
pub struct CodeSetting {
    pub(crate) code: Code,
    pub(crate) table: Vec<Variable>,
    pub(crate) rooms: Vec<u32>,
    pub(crate) inputs: Vec<i64>,
    pub(crate) share: u64,
    pub ghost faultless: { first_fault code ≡ None },
    pub ghost listed: { table.items ≡ table_from 0 code.vars },
    pub ghost roomy: { AreRooms code rooms.items } by { are_rooms_prop code rooms.items },
    pub ghost given: { AreInputs inputs.items },
}

impl CodeSetting {
    /// The setting of code without a fault, with its tables.
    pub fn new(
        alloc: Global,
        code: Code,
        inputs: Vec<i64>,
        share: u64,
    ) -> Result<CodeSetting, AllocError>
        requires faultless { first_fault code ≡ None }
        requires inputs { AreInputs inputs.items }
        ensures code { IfOk result (λ s. s.code ≡ code) }
        ensures inputs { IfOk result (λ s. s.inputs.items ≡ inputs.items) }
        ensures share { IfOk result (λ s. s.share ≡ share) }
    {
        let table = table_of(alloc, &code)?;
        let rooms = rooms_of(alloc, &code)?;
        Ok(CodeSetting {
            code,
            table,
            rooms,
            inputs,
            share,
        })
    }

    /// The code, in which no rule is broken.
    pub fn code(&self) -> &Code
        ensures code { result.now ≡ self.now.code }
        ensures faultless { first_fault result.now ≡ None }
    {
        &self.code
    }

    /// A block of the code.
    pub fn block(&self, n: u16) -> &CodeBlock
        requires { (b : CodeBlock) × (slice_get self.now.code.blocks n ≡ Some b) }
        ensures { slice_get self.now.code.blocks n ≡ Some result.now }
    {
        block_at(&self.code, n)
    }

    /// How many words the frames of a block of the code need.
    pub fn room(&self, n: u16) -> usize
        requires { (b : CodeBlock) × (slice_get self.now.code.blocks n ≡ Some b) }
        ensures { (b : CodeBlock) → slice_get self.now.code.blocks n ≡ Some b
            → IsRoom self.now.code n b result }
    {
        room_at(self.rooms.as_slice(), n)
    }

    /// The input numbers.
    pub fn inputs(&self) -> &[i64]
        ensures { result.now ≡ self.now.inputs.items }
    {
        self.inputs.as_slice()
    }

    /// The most fuel that a child gets.
    pub fn share(&self) -> u64
        ensures { result ≡ self.now.share }
    {
        self.share
    }
}
