//! How many words the frames of blocks need.

ghost use Rattle.std.specs.Prelude.{◌≡◌, ◌<◌, ◌≤◌, IfOk, None, Some, length, slice_get};
ghost use Rattle.std.specs.Prelude.{slice_index_or};
ghost use Rattle.rev_code.specs.declared.code.CodeBlock.{CodeBlock};
ghost use Rattle.code_rules.specs.Verdict.{first_fault};
ghost use Rattle.fun_run.specs.Rooms.{AreRooms, greatest_room, room_applied, room_of};

use rev_code::{BlockClass, Code, CodeBlock, Instr};
use std::alloc::{AllocError, Global};

/// The most words of a stack in verified code.
const MOST_WORDS: usize = 4096;

/// The most words that a fun or merge of verified code needs, with those that it applies.
const MOST_NEED: usize = 65_536;

/// A block of the code by its number.
pub(crate) fn block_in(blocks: &[CodeBlock], n: usize) -> &CodeBlock
    requires { n < length blocks.now }
    ensures { slice_get blocks.now n ≡ Some result.now }
{
    &blocks[n]
}

fn instr_in(instrs: &[Instr], n: usize) -> Instr
    requires { n < length instrs.now }
    ensures { slice_get instrs.now n ≡ Some result }
{
    instrs[n]
}

/// The room of a block, and 0 where it is not in the table.
fn room_in(rooms: &[u32], n: u16) -> u32
    ensures { result ≡ slice_index_or rooms.now n 0 }
{
    if (n as usize) < rooms.len() {
        rooms[n as usize]
    } else {
        0
    }
}

/// The room of the fun that an instruction applies.
fn applied_in(rooms: &[u32], x: Instr) -> u32
    ensures { result ≡ room_applied rooms.now x }
{
    match x {
        Instr::Apply(f) => room_in(rooms, f),
        _ => 0,
    }
}

/// The greatest room of a fun that one of these instructions applies.
fn most_applied(rooms: &[u32], instrs: &[Instr]) -> u32
    ensures { result ≡ greatest_room rooms.now instrs.now }
{
    let mut most = 0;
    for n in 0..instrs.len() {
        most = u32::max(most, applied_in(rooms, instr_in(instrs, n)));
    }
    most
}

/// As many words as verified code may need in a block: its locals, and a word for each instruction,
/// none of which leaves more than one word more than it found; in a fun or merge also what those
/// need that it applies, whose rooms are in the table.
fn room_for(rooms: &[u32], block: &CodeBlock) -> u32
    requires { length block.now.locals ≤ 64 }
    ensures { result ≡ room_of rooms.now block.now }
{
    let locals = block.locals.as_slice().len();
    let instrs = block.instrs.as_slice();
    match block.class {
        BlockClass::Fun | BlockClass::Merge => {
            let own = locals + usize::min(instrs.len(), MOST_NEED);
            usize::min(own + most_applied(rooms, instrs) as usize, MOST_NEED) as u32
        },
        BlockClass::Proc | BlockClass::Main => {
            (locals + usize::min(instrs.len(), MOST_WORDS)) as u32
        },
    }
}

/// Rooms for the blocks of verified code.
pub fn rooms_of(alloc: Global, code: &Code) -> Result<Vec<u32>, AllocError>
    requires { first_fault code.now ≡ None }
    ensures { IfOk result (λ rooms. AreRooms code.now rooms.items) }
{
    let blocks = code.blocks.as_slice();
    let mut rooms = Vec::new(alloc);
    for n in 0..blocks.len() {
        let room = room_for(rooms.as_slice(), block_in(blocks, n));
        rooms.push(room)?;
    }
    Ok(rooms)
}
