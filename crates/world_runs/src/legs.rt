//! Ways of making legs.

use code_world::{CodeSetting, LegAnswer, World};
use std::alloc::{AllocError, Global};
use version_map::MergeBy;

/// A way of making the legs of a world. Of each world that it has led to it keeps something, about
/// what it was told.
pub trait Legs {
    ghost use Rattle.std.specs.Prelude.{◌≡◌, ℕ, IfErr, IfOk};
    ghost use Rattle.fun_run.specs.Merging.{AreMergesOf};
    ghost use Rattle.block_run.specs.Area.{count};
    ghost use Rattle.code_machine.specs.Local.{CodeRun, Local};
    ghost use Rattle.code_world.specs.Answers.{LegAnswers};
    ghost use Rattle.code_world.specs.LegOutcomes.{run_under};
    ghost use Rattle.code_world.specs.Tables.{IsWorld};
    ghost use Rattle.code_world.specs.declared.world.World as rust;
    ghost use Rattle.code_machine_laws.specs.Reached.{IsReached};
    ghost use Rattle.revision_machine.specs.Numbered.{World as DefinedWorld};
    ghost use Rattle.world_runs.specs.KeptByLegs.{KeepsOn};

    /// Why a run by such legs comes to no end.
    type Fault;

    // What no leg changes, as with how much fuel the run began.
    ghost Told: { Type 0 };
    // What is kept of a world that stands so.
    ghost keeps: { Self → Told → CodeRun → DefinedWorld (Local ℕ) → rust.World → Type 0 };
    // What is left where a run comes to no end.
    ghost stops: { Self → Told → CodeRun → Self.Fault → Type 0 };

    /// The world after the leg of the revision of this number, and how the leg came out, as `leg`
    /// of `code_world` has it.
    fn leg<M: MergeBy>(
        &mut self,
        alloc: Global,
        setting: &CodeSetting,
        merges: &mut M,
        world: World,
        revision: u32,
    ) -> Result<(World, LegAnswer), Self::Fault>
        requires reached { (w : DefinedWorld (Local ℕ)) × IsReached (run_under setting.now) w
            × IsWorld (run_under setting.now) world w
            × (t : Told) × keeps self.old t (run_under setting.now) w world }
        requires size { M.size merges.old ≡ count setting.now.code.vars }
        requires merges { AreMergesOf (run_under setting.now) (M.merges merges.old) }
        ensures answer { (w : DefinedWorld (Local ℕ)) → IsReached (run_under setting.now) w
            → IsWorld (run_under setting.now) world w
            → (t : Told) → keeps self.old t (run_under setting.now) w world
            → IfOk result (λ r. LegAnswers (run_under setting.now) w revision r.1 r.0) }
        ensures kept { (w : DefinedWorld (Local ℕ)) → IsReached (run_under setting.now) w
            → IsWorld (run_under setting.now) world w
            → (t : Told) → keeps self.old t (run_under setting.now) w world
            → IfOk result (λ r. KeepsOn (λ u. keeps self.new t (run_under setting.now) u r.0)
            (run_under setting.now) w revision r.1) }
        ensures stopped { (w : DefinedWorld (Local ℕ)) → IsReached (run_under setting.now) w
            → IsWorld (run_under setting.now) world w
            → (t : Told) → keeps self.old t (run_under setting.now) w world
            → IfErr result (λ f. stops self.new t (run_under setting.now) f) }
        ensures size { M.size merges.new ≡ M.size merges.old }
        ensures same { M.merges merges.new ≡ M.merges merges.old };

    /// Why the run comes to no end where memory runs out between two legs.
    fn out_of_memory(&self, error: AllocError) -> Self::Fault
        ensures { (g : CodeRun) (w : DefinedWorld (Local ℕ)) (v : rust.World) → IsReached g w
            → IsWorld g v w → (t : Told) → keeps self.now t g w v → stops self.now t g result };
}
