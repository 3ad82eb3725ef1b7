//! Where the revisions of a run come from.

ghost use Rattle.std.specs.Prelude.{◌≡◌, ◌<◌, ◌≤◌, ◌+◌, ◌^◌, IfOk, OnOk, Some, length};
ghost use Rattle.revision_machine.specs.Numbered.{at_number};
ghost use Rattle.code_world.specs.Turns.{born};
ghost use Rattle.thread_runs.specs.Births.{AreBirths, AreEarlier};

use code_world::Birth;
use std::alloc::{AllocError, Global};

/// One more fork of this revision, and its child, which comes last.
fn bear(births: &mut Vec<Birth>, forker: u32) -> Result<(), AllocError>
    requires forker { forker < length births.old.items }
    requires few { (b : Birth) → at_number births.old.items forker ≡ Some b
        → b.forks + 1 < 2 ^ 32 }
    ensures { OnOk result ((b : Birth) × (at_number births.old.items forker ≡ Some b)
        × (births.new.items ≡ born births.old.items forker b)) }
{
    let birth = births[forker as usize];
    births[forker as usize] = Birth {
        forks: birth.forks + 1,
        ..birth
    };
    births.push(Birth {
        forker,
        place: birth.forks,
        forks: 0,
    })?;
    Ok(())
}

/// The birth of each revision, by number, from the forkers of all: a revision's place is how many
/// its forker had forked before. The first revision has itself for its forker and is not counted,
/// and each other has an earlier one. There are at most 2^32. It takes one pass. Want of memory is
/// the one error.
pub fn births_of(alloc: Global, forkers: &[u32]) -> Result<Vec<Birth>, AllocError>
    requires first { at_number forkers.now 0 ≡ Some 0 }
    requires earlier { AreEarlier forkers.now }
    requires few { length forkers.now ≤ 2 ^ 32 }
    ensures { IfOk result (λ bs. AreBirths forkers.now bs.items) }
{
    let mut births = Vec::with_capacity(alloc, forkers.len())?;
    births.push(Birth {
        forker: 0,
        place: 0,
        forks: 0,
    })?;
    for number in 1..forkers.len() {
        bear(&mut births, forkers[number])?;
    }
    Ok(births)
}
