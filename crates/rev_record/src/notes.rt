//! Notes before a leg.

ghost use Rattle.std.specs.Prelude.{◌≡◌, ◌<◌, ◌^◌, IfOk, length};
ghost use Rattle.version_map.specs.Deltas.{locations};
ghost use Rattle.rev_record.specs.Told.{IsBlank};

use leg_run::{CodeSetting, ReadMarks};
use std::alloc::{AllocError, Global};
use version_map::Delta;

/// Notes of nothing, with room for each location and for each position of the input.
pub fn blank(alloc: Global, setting: &CodeSetting, count: u32) -> Result<ReadMarks, AllocError>
    requires few { length setting.now.inputs.items < 2 ^ 32 }
    ensures blank { IfOk result (λ n. IsBlank n) }
    ensures locations { IfOk result (λ n. locations n.locations ≡ count) }
    ensures positions { IfOk result (λ n. locations n.inputs ≡ length setting.now.inputs.items) }
{
    Ok(ReadMarks {
        locations: Delta::new(alloc, count)?,
        inputs: Delta::new(alloc, setting.inputs().len() as u32)?,
        count: false,
    })
}
