//! Collapses.

ghost use Rattle.std.specs.Prelude.{◌≡◌, [], IfOk};
ghost use Rattle.version_map.specs.Deltas.{locations};

use crate::codes::block;
use crate::driver::run_to_end;
use code_verifier::{CodeFault, verify};
use fun_run::BlockMerges;
use leg_run::CodeSetting;
use rev_code::{BlockClass, Code, CodeVar, Instr};
use rev_num::{Items, ValueKind};
use rev_vm::start_main;
use std::alloc::{AllocError, Global};
use version_map::{Collapsed, Delta, How, Snapshot, collapse_all};

/// A snapshot whose locations are all 0, and which forks where it has none. It has parts to take
/// over one that is kept, counts how often it was asked, and knows what its last call other than
/// `read` answered, where that was a collapse.
#[derive(Drop)]
struct Parts {
    locations: u32,
    left: u64,
    asked: u64,
    last: Option<Collapsed>,
}

impl Snapshot for Parts {
    ghost use Rattle.std.specs.Prelude.{[], ◌≡◌, ◌+◌, Some};
    ghost use Rattle.version_map.specs.declared.snapshot.How.TheVariants.{Copied};

    type Spent = u64;

    ghost size = { λ p. p.locations };

    ghost base = { λ _ l. 0 };

    ghost depth = { λ p. p.left + 1 };

    ghost group = { λ _. [] };

    ghost answered = { λ p c. p.last ≡ Some c };

    ghost hows = { λ h. h ≡ Copied };

    ghost spent_group = { λ _. [] };

    fn read(&mut self, location: u32) -> u64 {
        0
    }

    fn fork(&mut self, alloc: Global, delta: &mut Delta) -> Result<(Parts, How), AllocError> {
        if self.locations > 0 {
            return Err(AllocError);
        }
        self.last = None;
        Ok((new_parts(0), How::Copied))
    }

    fn collapse(&mut self, into: &mut Delta) -> Collapsed {
        self.asked = self.asked.saturating_add(1);
        let answer = if self.left == 0 {
            Collapsed::Kept { count: 2 }
        } else {
            self.left -= 1;
            Collapsed::Took
        };
        self.last = Some(answer);
        answer
    }

    fn release(self) -> u64 {
        self.asked
    }
}

/// A snapshot of no locations and of so many parts, which was not asked yet.
fn new_parts(left: u64) -> Parts
    ensures { (result.left ≡ left) × (result.locations ≡ 0) }
{
    Parts {
        locations: 0,
        left,
        asked: 0,
        last: None,
    }
}

/// Whether a collapse of all asks a snapshot of two parts three times.
pub fn is_asked_three_times(alloc: Global) -> Result<bool, AllocError> {
    let mut parts = new_parts(2);
    let mut delta = Delta::new(alloc, 0)?;
    let last = collapse_all(&mut parts, &mut delta);
    Ok(matches!(last, Collapsed::Kept { count: 2 }) && parts.release() == 3)
}

/// A child that only returns, and `main`, which forks and joins it. There is no variable.
fn fork_and_join(alloc: Global) -> Result<Code, AllocError>
    ensures { IfOk result (λ code. code.vars ≡ []) }
{
    let main: &[Instr] = &[
        Instr::Charge(2),
        Instr::Fork(0),
        Instr::StoreLocal(0),
        Instr::Charge(3),
        Instr::LoadLocal(0),
        Instr::Join,
        Instr::Return,
    ];
    let child = block(alloc, BlockClass::Proc, 0, None, &[], &[Instr::Return])?;
    let first = block(alloc, BlockClass::Main, 0, None, &[ValueKind::Rev], main)?;
    let mut blocks = Vec::new(alloc);
    blocks.push(child)?;
    blocks.push(first)?;
    let vars: Vec<CodeVar> = Vec::new(alloc);
    Ok(Code {
        vars: Items::from_vec(vars),
        texts: Items::from_vec(Vec::new(alloc)),
        layouts: Items::from_vec(Vec::new(alloc)),
        blocks: Items::from_vec(blocks),
    })
}

/// How often the snapshot was asked when code without variables, which ends in three legs, has
/// ended.
fn asked_by(alloc: Global, setting: &CodeSetting, parts: Parts) -> Result<Option<u64>, AllocError>
    requires none { setting.now.code.vars ≡ [] }
    requires parts { parts.locations ≡ 0 }
{
    let mut merges = BlockMerges::of(alloc, setting.code())?;
    match start_main(alloc, setting, parts, 100) {
        Ok(runner) => match run_to_end(alloc, setting, &mut merges, runner, 3)? {
            Some((_, asked)) => Ok(Some(asked)),
            None => Ok(None),
        },
        Err(parts) => {
            parts.release();
            Err(AllocError)
        },
    }
}

/// Whether one `settle` asks a snapshot of two parts three times.
pub fn settle_asks_three_times(alloc: Global) -> Result<bool, AllocError> {
    let verified = match verify(alloc, fork_and_join(alloc)?) {
        Ok(verified) => verified,
        Err(CodeFault::OutOfMemory) => return Err(AllocError),
        Err(_) => return Ok(false),
    };
    let setting = CodeSetting::new(alloc, verified.into_code(), Vec::new(alloc), 10)?;
    let parts = new_parts(2);
    Ok(asked_by(alloc, &setting, parts)? == Some(3))
}
