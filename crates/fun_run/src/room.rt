//! What merges need once: the merge block of each location, a memory of zeros, and the three words.

ghost use Rattle.std.specs.Prelude.{◌≡◌, ◌+◌, ◌∷◌, [], ◌++◌, ◌≤◌, ◌<◌, IfOk, length};
ghost use Rattle.std.specs.Prelude.{ℕ, Some, vec_len, replicate, slice_get, take, drop};
ghost use Rattle.code_machine.specs.Joining.{merge_in, merges_of};

use block_run::Memory;
use rev_code::{Code, CodeVar};
use std::alloc::{AllocError, Global};
use version_map::{Delta, First, Whole};

/// The merge block of a variable, where it is cumulative.
fn merge_block(v: &CodeVar) -> Option<u16>
    ensures { result ≡ merge_in v.now }
{
    if v.cumulative { Some(v.merge) } else { None }
}

/// The merge block of each cell of a variable.
fn push_cells(blocks: &mut Vec<Option<u16>>, v: &CodeVar) -> Result<(), AllocError>
    ensures { IfOk result (λ _. blocks.new.items
        ≡ blocks.old.items ++ replicate v.now.cells (merge_in v.now)) }
{
    let block = merge_block(v);
    for cell in 0..v.cells {
        blocks.push(block)?;
    }
    Ok(())
}

/// The merge block of each location, where it has one.
pub fn merge_blocks(alloc: Global, code: &Code) -> Result<Vec<Option<u16>>, AllocError>
    ensures { IfOk result (λ blocks. blocks.items ≡ merges_of code.now.vars) }
{
    let vars = code.vars.as_slice();
    let mut blocks = Vec::new(alloc);
    for at in 0..vars.len() {
        push_cells(&mut blocks, &vars[at])?;
    }
    Ok(blocks)
}

/// A memory of so many locations, which is never written.
pub fn blank_memory(alloc: Global, locations: u32) -> Result<Memory<Whole>, AllocError>
    ensures { IfOk result (λ memory. vec_len memory.snapshot.words ≡ locations) }
{
    Ok(Memory {
        delta: Delta::new(alloc, locations)?,
        first: First::new(alloc, locations)?,
        snapshot: Whole::new(vec![in alloc; 0; locations as usize]?),
    })
}

/// The greatest of these rooms, and at least three, for the words that a merge takes.
pub fn most_room(rooms: &[u32]) -> u32
    ensures three { 3 ≤ result }
    ensures each { (n room : ℕ) → slice_get rooms.now n ≡ Some room → room ≤ result }
{
    let mut most = 3;
    for n in 0..rooms.len() {
        most = u32::max(most, rooms[n]);
    }
    most
}

/// Puts three words at the front.
pub fn put_three(words: &mut [u64], main: u64, join: u64, root: u64)
    requires { 3 ≤ length words.old }
    ensures { take 3 (drop 0 words.new) ≡ main ∷ join ∷ root ∷ [] }
{
    words[0] = main;
    words[1] = join;
    words[2] = root;
}
