//! The instances, by which `theory`, `schedule_theory` and `simulation_theory` of
//! `revision_machine` hold of verified code.

ghost use Rattle.std.specs.Prelude.{ℕ};
ghost use Rattle.code_machine.specs.Machines.{IsMain, start_in};
ghost use Rattle.revision_machine.specs.Theory.{AreFirst};
ghost use Rattle.code_machine_laws.specs.Instance.{simulation};
ghost use Rattle.code_machine_laws.specs.Run.{run_of};

use crate::run::VerifiedRun;
use revision_machine::{LawfulMachine, NumberedWorld, Simulated};

impl LawfulMachine for VerifiedRun {
    ghost use Rattle.code_machine_laws.specs.Instance as instance;
    ghost use Rattle.code_machine_laws.specs.Run.{run_of};

    ghost lawful = { λ v. instance.lawful (run_of v) v.sound };
}

impl NumberedWorld for VerifiedRun {
    ghost use Rattle.code_machine_laws.specs.Instance as instance;
    ghost use Rattle.code_machine_laws.specs.Run.{run_of};

    ghost world = { λ v. instance.world (run_of v) v.sound };
}

impl Simulated for VerifiedRun {
    ghost use Rattle.code_machine_laws.specs.Instance as instance;
    ghost use Rattle.code_machine_laws.specs.Run.{run_of};

    ghost simulation = { λ v. instance.simulation (run_of v) v.sound };
}

/// `main` by paths and `main` by number, with any fuel, are first states of the simulation.
pub fn starts()
    ensures { (v : VerifiedRun) (n : ℕ) (m : IsMain (run_of v) n) (fuel : ℕ)
        → AreFirst (simulation (run_of v) v.sound) (start_in (run_of v) n m.body fuel)
        (start_in (run_of v) n m.body fuel) }
{}
