//! Verified code, run to its outcome on one thread, whose text goes to a sink leg by leg.

ghost use Rattle.std.specs.Prelude.{◌≤◌};
ghost use Rattle.rev_num.specs.Limits.{most_fuel};
ghost use Rattle.world_streams.specs.Streamed.{Streamed};
ghost use Rattle.code_machine_laws.specs.Texts.{NeverJoinsTwice};

use crate::fault::StreamFault;
use crate::run::stream;
use code_runs::{note_inputs, outcome_after};
use code_verifier::Verified;
use code_world::World;
use fun_run::BlockMerges;
use leg_run::CodeSetting;
use rev_io::Sink;
use rev_num::Outcome;
use std::alloc::Global;

/// The outcome of verified code with these inputs, share and fuel, of which there are at most
/// 4,000,000,000 units, and which never joins a revision twice. `out` gets the text of `main` leg by
/// leg, each of which is that of the least revision that has one: at the end all of it, and a first
/// part where the sink failed or memory ran out.
pub fn stream_code<O: Sink>(
    alloc: Global,
    code: Verified,
    inputs: Vec<i64>,
    share: u64,
    fuel: u64,
    out: &mut O,
) -> Result<Outcome, StreamFault>
    requires few { fuel ≤ most_fuel }
    requires never { NeverJoinsTwice
        (record { code = code.code; inputs = inputs.items; share = share }) fuel }
    ensures { Streamed (record { code = code.code; inputs = inputs.items; share = share }) fuel
        (O.stream out.old) (O.stream out.new) result }
{
    note_inputs(&inputs);
    let setting = CodeSetting::new(alloc, code.into_code(), inputs, share)?;
    let mut merges = BlockMerges::of(alloc, setting.code())?;
    let start = World::begin(alloc, &setting, fuel)?;
    let end = stream(alloc, &setting, &mut merges, start, out)?;
    let outcome = outcome_after(alloc, &setting, end)?;
    Ok(outcome)
}
