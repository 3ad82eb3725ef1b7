//! Entries of revisions that have just ended.

ghost use Rattle.std.specs.Prelude.{◌≡◌, IfOk, List, Some, length};
ghost use Rattle.rev_num.specs.Path.{Path as DefinedPath};
ghost use Rattle.revision_machine.specs.Numbered.{at_number};
ghost use Rattle.code_memos.specs.Leaf.{Fresh as DefinedFresh, Known};
ghost use Rattle.code_world.specs.Endings.{Names};
ghost use Rattle.rev_vm.specs.Starts.{run_under};
ghost use Rattle.version_map.specs.Deltas.{locations};
ghost use Rattle.rev_record.specs.Begins.{BeginsAt};
ghost use Rattle.rev_record.specs.Standing.{StandsFor};
ghost use Rattle.rev_record.specs.Told.{IsTold};
ghost use Rattle.rev_record.specs.Words.{leaf_end};

use crate::entry::{LeafEnd, LeafEntry};
use crate::reads::{count_read, inputs_read, locations_read};
use crate::values::{args_values, kept_writes};
use code_runs::path_of;
use code_world::{Birth, FreshStart};
use leg_run::{CodeSetting, ReadMarks};
use rev_num::Items;
use std::alloc::{AllocError, Global};
use version_map::{CodeTrap, EndValue, Finish};

/// How a revision ended by itself.
fn end_so(finish: Finish) -> LeafEnd
    ensures { result ≡ leaf_end finish }
{
    match finish {
        Finish::Done => LeafEnd::Done,
        Finish::Trapped(
            CodeTrap {
                cause,
                line,
                origin: _,
            },
        ) => LeafEnd::Trapped { cause, line },
    }
}

/// The entry of the leaf revision of this number, which has just ended: from that with which it
/// began, the notes of what it read, and its end value. Want of memory is the one error.
pub fn make_entry(
    alloc: Global,
    setting: &CodeSetting,
    births: &[Birth],
    number: u32,
    start: &FreshStart,
    noted: &ReadMarks,
    end: &EndValue,
) -> Result<LeafEntry, AllocError>
    requires names { (t : List DefinedPath) × Names births.now t }
    requires begins { (t : List DefinedPath) × (f : DefinedFresh DefinedPath)
        × BeginsAt setting.now.code t f start.now }
    requires locations { locations noted.now.locations ≡ length start.now.base.items }
    requires positions { locations noted.now.inputs ≡ length setting.now.inputs.items }
    ensures { IfOk result (λ k. (t : List DefinedPath) (f : DefinedFresh DefinedPath) (e : Known)
        → Names births.now t → at_number t number ≡ Some e.path
        → BeginsAt setting.now.code t f start.now
        → IsTold (run_under setting.now) t f noted.now end.now e → StandsFor k e) }
{
    let variables = setting.code().vars.as_slice();
    let kinds = setting.block(start.block).locals.as_slice();
    let path = path_of(alloc, births, number as usize)?;
    let args = args_values(alloc, births, kinds, start.args.as_slice())?;
    let base = start.base.as_slice();
    let locations = locations_read(alloc, births, variables, &noted.locations, base)?;
    let inputs = inputs_read(alloc, &noted.inputs, setting.inputs())?;
    let written = kept_writes(alloc, births, variables, end.written.as_slice())?;
    let text = Vec::from_slice(alloc, end.text.as_slice())?;
    Ok(LeafEntry {
        path,
        block: start.block,
        args: Items::from_vec(args),
        fuel: start.fuel,
        locations: Items::from_vec(locations),
        inputs: Items::from_vec(inputs),
        count: count_read(noted.count, setting.inputs()),
        written: Items::from_vec(written),
        text: Items::from_vec(text),
        rest: end.fuel,
        end: end_so(end.finish),
    })
}
