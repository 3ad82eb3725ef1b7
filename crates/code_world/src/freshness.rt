//! Revisions before their first instruction, and with what they begin.

ghost use Rattle.std.specs.Prelude.{◌≡◌, ℕ, IfOk, length, option_copied, slice_index};
ghost use Rattle.rev_code.specs.State.{State};
ghost use Rattle.block_run.specs.Agreement.{AreWords};
ghost use Rattle.code_machine.specs.Local.{CodeRun, Local};
ghost use Rattle.code_memos.specs.Leaf.{Fresh as DefinedFresh, IsFresh};
ghost use Rattle.code_machine_laws.specs.Reached.{IsReached};
ghost use Rattle.revision_machine.specs.Numbered.{Entries, World as DefinedWorld, at_number};
ghost use Rattle.rev_vm.specs.Starts.{run_under};
ghost use Rattle.version_map.specs.Deltas.{locations};
ghost use Rattle.version_map.specs.Overlay.{under, Agree};
ghost use Rattle.code_world.specs.Beginnings.{FreshAt, FreshIn, IsBegun, running_in};
ghost use Rattle.code_world.specs.Slots.{Runs};
ghost use Rattle.code_world.specs.Tables.{IsWorld};
ghost use Rattle.code_world.specs.Turns.{IsGood};

use crate::slot::WorldSlot;
use crate::table::Table;
use crate::world::World;
use leg_run::CodeSetting;
use rev_vm::Runner;
use std::alloc::{AllocError, Global};
use version_map::{Delta, Whole};

/// With what a revision begins. A word of a handle is 0 or the revision's number and 1.
#[derive(Drop)]
pub struct FreshStart {
    pub block: u16,
    pub args: Vec<u64>,
    /// The word of each location.
    pub base: Vec<u64>,
    pub fuel: u64,
}

/// The words that a revision sees, location by location.
fn words_seen(alloc: Global, delta: &Delta, base: &[u64]) -> Result<Vec<u64>, AllocError>
    requires { locations delta.now ≡ length base.now }
    ensures many { IfOk result (λ ws. length ws.items ≡ locations delta.now) }
    ensures words { IfOk result (λ ws. Agree (locations delta.now) (slice_index ws.items)
        (under delta.now (slice_index base.now))) }
{
    let mut words = Vec::new(alloc);
    for location in 0..delta.locations() {
        let word = match delta.get(location) {
            Some(word) => word,
            None => base[location as usize],
        };
        words.push(word)?;
    }
    Ok(words)
}

/// The words that a fresh revision sees: those of its snapshot, where nothing lies over it.
fn words_of(alloc: Global, runner: &Runner<Whole>) -> Result<Vec<u64>, AllocError>
    ensures { (g : CodeRun) (c : State ℕ) (f : DefinedFresh ℕ) → Runs g runner.now c
        → IsFresh g.code f c → IfOk result (λ ws. AreWords f.snapshot ws.items) }
{
    let words = runner.snapshot().words();
    match runner.delta() {
        Some(delta) => {
            let seen = words_seen(alloc, delta, words)?;
            Ok(seen)
        },
        None => {
            let seen = Vec::from_slice(alloc, words)?;
            Ok(seen)
        },
    }
}

/// With what a revision began that stands before its first instruction.
fn begun(
    alloc: Global,
    setting: &CodeSetting,
    runner: &Runner<Whole>,
) -> Result<FreshStart, AllocError>
    requires { (c : State ℕ) × (f : DefinedFresh ℕ) × Runs (run_under setting.now) runner.now c
        × IsFresh setting.now.code f c }
    ensures { (c : State ℕ) (f : DefinedFresh ℕ) → Runs (run_under setting.now) runner.now c
        → IsFresh setting.now.code f c → IfOk result (λ x. IsBegun f x) }
{
    let given = runner.args(setting);
    let args = Vec::from_slice(alloc, given)?;
    let base = words_of(alloc, runner)?;
    let block = runner.block();
    let fuel = runner.fuel();
    Ok(FreshStart {
        block,
        args,
        base,
        fuel,
    })
}

impl Table {
    /// The revision of this number, where it is a running one.
    fn runner_of(&self, number: usize) -> Option<&Runner<Whole>>
        ensures { option_copied result ≡ running_in (at_number self.now.slots.items number) }
    {
        match self.slots.get(number) {
            Some(WorldSlot::Running(runner)) => Some(runner),
            _ => None,
        }
    }

    /// With what the revision of this number begins, if it is a running one before its first
    /// instruction.
    fn fresh(
        &self,
        alloc: Global,
        setting: &CodeSetting,
        number: usize,
    ) -> Result<Option<FreshStart>, AllocError>
        requires { (w : Entries (Local ℕ)) × IsGood (run_under setting.now) self.now w }
        ensures { (w : Entries (Local ℕ)) → IsGood (run_under setting.now) self.now w
            → IfOk result (λ o. FreshIn (run_under setting.now) self.now w number o) }
    {
        let Some(runner) = self.runner_of(number) else {
            return Ok(None);
        };
        if !runner.is_fresh() {
            return Ok(None);
        }
        let fresh = begun(alloc, setting, runner)?;
        Ok(Some(fresh))
    }
}

/// With what the revision of this number begins, where it has made no instruction: not where it has
/// ended, was joined, stands at a join or is none of the world, and not in Twice. Want of memory is
/// the one error.
pub fn fresh(
    alloc: Global,
    setting: &CodeSetting,
    world: &World,
    revision: u32,
) -> Result<Option<FreshStart>, AllocError>
    requires { (w : DefinedWorld (Local ℕ)) × IsReached (run_under setting.now) w
        × IsWorld (run_under setting.now) world.now w }
    ensures { (w : DefinedWorld (Local ℕ)) → IsReached (run_under setting.now) w
        → IsWorld (run_under setting.now) world.now w
        → IfOk result (λ o. FreshAt (run_under setting.now) world.now w revision o) }
{
    match world {
        World::Live(table) => table.fresh(alloc, setting, revision as usize),
        World::Twice => Ok(None),
    }
}
