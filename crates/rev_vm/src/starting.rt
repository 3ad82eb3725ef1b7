//! What a first revision begins with.

ghost use Rattle.std.specs.Prelude.{◌≡◌, ◌<◌, IfOk, Some, length, slice_get};
ghost use Rattle.rev_code.specs.declared.code.CodeBlock.{CodeBlock};
ghost use Rattle.rev_code.specs.Step.{params};
ghost use Rattle.code_soundness.specs.AcceptedCode.{notes_of, IsAccepted};
ghost use Rattle.block_run.specs.Area.{count};
ghost use Rattle.version_map.specs.Deltas.{locations, IsEmpty};
ghost use Rattle.rev_vm.specs.Starts.{Begins};

use crate::frame::first_frame;
use crate::spares::Spares;
use leg_run::{CodeSetting, Run};
use rev_code::Code;
use std::alloc::{AllocError, Global};
use version_map::{Delta, First};

/// How many locations the code has.
fn location_count(code: &Code) -> u32
    requires { IsAccepted code.now (notes_of code.now) }
    ensures { result ≡ count code.now.vars }
{
    let vars = code.vars.as_slice();
    let mut total = 0;
    for at in 0..vars.len() {
        total += vars[at].cells;
    }
    total
}

/// A revision in a first frame of this block, and a memory in which nothing is written.
pub fn begin_with(
    alloc: Global,
    setting: &CodeSetting,
    block: u16,
    args: &[u64],
    fuel: u64,
    spares: &mut Spares,
) -> Result<(Run, Delta, First), AllocError>
    requires block { (b : CodeBlock) × (slice_get setting.now.code.blocks block ≡ Some b)
        × (length args.now ≡ length (params b)) }
    ensures run { IfOk result (λ r. Begins setting.now block args.now fuel r.0) }
    ensures delta { IfOk result (λ r. (locations r.1 ≡ count setting.now.code.vars) × IsEmpty r.1) }
    ensures first { IfOk result
        (λ r. (locations r.2.roots ≡ count setting.now.code.vars) × IsEmpty r.2.roots) }
{
    let b = setting.block(block);
    let room = setting.room(block);
    let run = first_frame(alloc, b, block, room, args, fuel)?;
    let count = location_count(setting.code());
    let (delta, first) = spares.take(alloc, count)?;
    Ok((run, delta, first))
}
