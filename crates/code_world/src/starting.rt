//! The start of a world.

ghost use Rattle.std.specs.Prelude.{◌≡◌, ◌≤◌, [], ℕ, IfOk, OnOk};
ghost use Rattle.rev_num.specs.Limits.{most_fuel};
ghost use Rattle.code_machine.specs.Machines.{IsMain, numbered, start_in};
ghost use Rattle.revision_machine.specs.Numbered as numbers;
ghost use Rattle.rev_vm.specs.Starts.{run_under};
ghost use Rattle.code_world.specs.Said.{main_text};
ghost use Rattle.code_world.specs.Starts.{IsAlone, IsFirst};
ghost use Rattle.code_world.specs.Tables.{IsWorld};

use crate::slot::WorldSlot;
use crate::table::{Birth, Table};
use crate::world::World;
use leg_run::CodeSetting;
use rev_vm::{Runner, Spares, start_main, start_whole};
use std::alloc::{AllocError, Global};
use version_map::{Snapshot, Whole};

/// `main` before its first instruction, with this fuel.
fn first_runner(
    alloc: Global,
    setting: &CodeSetting,
    fuel: u64,
) -> Result<Runner<Whole>, AllocError>
    ensures { IfOk result (λ r. IsFirst (run_under setting.now) fuel r) }
{
    let words = start_whole(alloc, setting.code())?;
    match start_main(alloc, setting, words, fuel) {
        Ok(runner) => Ok(runner),
        Err(snapshot) => {
            snapshot.release();
            Err(AllocError)
        },
    }
}

/// `main` alone.
fn alone(alloc: Global, runner: Runner<Whole>) -> Result<Table, AllocError>
    ensures { IfOk result (λ t. IsAlone runner t) }
{
    let mut table = Table {
        slots: Vec::new(alloc),
        births: Vec::new(alloc),
        spares: Spares::new(alloc),
    };
    match table.enter(runner) {
        Ok(()) => Ok(table),
        Err(error) => {
            table.give_up();
            Err(error)
        },
    }
}

impl Table {
    /// Enters `main` into a table of none.
    fn enter(&mut self, runner: Runner<Whole>) -> Result<(), AllocError>
        requires { (self.old.slots.items ≡ []) × (self.old.births.items ≡ []) }
        ensures { OnOk result (IsAlone runner self.new) }
    {
        match self.slots.push(WorldSlot::Running(runner)) {
            Ok(()) => {},
            Err(failed) => {
                failed.value.give_up();
                return Err(AllocError);
            },
        }
        self.births.push(Birth {
            forker: 0,
            place: 0,
            forks: 0,
        })?;
        Ok(())
    }
}

impl World {
    /// The world at the start: `main` alone, with this fuel, of which there are at most
    /// 4,000,000,000 units. Want of memory is the one error.
    pub fn begin(alloc: Global, setting: &CodeSetting, fuel: u64) -> Result<World, AllocError>
        requires fuel { fuel ≤ most_fuel }
        ensures silent { IfOk result (λ v. main_text v ≡ []) }
        ensures begun { IfOk result (λ v. (n : ℕ) × (m : IsMain (run_under setting.now) n)
            × IsWorld (run_under setting.now) v (numbers.begin (numbered (run_under setting.now))
            (start_in (run_under setting.now) n m.body fuel))) }
    {
        let runner = first_runner(alloc, setting, fuel)?;
        Ok(World::Live(alone(alloc, runner)?))
    }
}
