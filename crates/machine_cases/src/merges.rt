//! Merges by merge blocks.

ghost use Rattle.std.specs.Prelude.{◌≡◌, ◌<◌, IfOk};
ghost use Rattle.block_run.specs.Area.{count};

use crate::codes::{block, fun_and_merge, variable};
use code_verifier::{CodeFault, verify};
use fun_run::BlockMerges;
use rev_code::{BlockClass, Code, Instr};
use rev_num::{Items, NumFault, int_of_word, word_of_int};
use std::alloc::{AllocError, Global};
use version_map::MergeBy;

/// A versioned variable, and a cumulative array of two cells.
fn code_of(alloc: Global) -> Result<Code, AllocError>
    ensures { IfOk result (λ code. count code.vars ≡ 3) }
{
    let mut blocks = fun_and_merge(alloc)?;
    blocks.push(block(alloc, BlockClass::Main, 0, None, &[], &[Instr::Return])?)?;
    let mut vars = Vec::new(alloc);
    vars.push(variable(alloc, b'v', false, 1)?)?;
    vars.push(variable(alloc, b'n', true, 2)?)?;
    Ok(Code {
        vars: Items::from_vec(vars),
        texts: Items::from_vec(Vec::new(alloc)),
        layouts: Items::from_vec(Vec::new(alloc)),
        blocks: Items::from_vec(blocks),
    })
}

/// What the merge of a location gives for three numbers.
fn merged(
    merges: &mut BlockMerges,
    location: u32,
    main: i64,
    join: i64,
    root: i64,
) -> Result<i64, NumFault>
    requires { location < count merges.old.code.now.vars }
    ensures { count merges.new.code.now.vars ≡ count merges.old.code.now.vars }
{
    let word = merges.merge(
        location,
        word_of_int(main),
        word_of_int(join),
        word_of_int(root),
    )?;
    Ok(int_of_word(word))
}

/// Whether the merges of a versioned and of a cumulative location give what they should.
pub fn give_what_they_should(alloc: Global) -> Result<bool, AllocError> {
    let code = code_of(alloc)?;
    let verified = match verify(alloc, code) {
        Ok(verified) => verified,
        Err(CodeFault::OutOfMemory) => return Err(AllocError),
        Err(_) => return Ok(false),
    };
    let mut merges = BlockMerges::new(alloc, &verified)?;
    Ok(
        merged(&mut merges, 0, 10, 7, 4) == Ok(7)
            && merged(&mut merges, 2, 10, 7, 4) == Ok(13)
            && merged(&mut merges, 1, i64::MAX, 7, 4) == Err(NumFault::Overflow)
            && merged(&mut merges, 1, i64::MIN, -5, -5) == Ok(i64::MIN),
    )
}
