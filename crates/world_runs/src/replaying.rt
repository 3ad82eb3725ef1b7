//! Replays of a schedule, by legs that are made in some way.

ghost use Rattle.std.specs.Prelude.{◌≡◌, ◌≤◌, ◌<◌, ℕ, IfOk, IfErr};
ghost use Rattle.rev_num.specs.Limits.{most_fuel};
ghost use Rattle.fun_run.specs.Merging.{AreMergesOf};
ghost use Rattle.block_run.specs.Area.{count};
ghost use Rattle.code_machine.specs.Local.{Local};
ghost use Rattle.code_world.specs.Tables.{IsWorld};
ghost use Rattle.code_machine_laws.specs.Reached.{IsReached};
ghost use Rattle.revision_machine.specs.Numbered.{World as DefinedWorld};
ghost use Rattle.code_world.specs.LegOutcomes.{run_under};
ghost use Rattle.world_runs.specs.KeptByLegs.{HasMadeKeeping, IsKeptFirst};
ghost use Rattle.world_runs.specs.Replay.{IsIllegal, Replayed};

use crate::legs::Legs;
use crate::made::{Made, sort_out};
use code_world::{CodeSetting, World};
use std::alloc::{AllocError, Global};
use version_map::MergeBy;

/// Why a schedule gives no world: an entry has no leg, or memory is wanting.
#[derive(Clone, Copy)]
pub enum ReplayFault {
    /// The first entry without a leg: its place, counted from 0, and its number.
    Illegal { at: usize, revision: u32 },
    OutOfMemory,
}

impl From<AllocError> for ReplayFault {
    ghost use Rattle.world_runs.specs.declared.replaying.ReplayFault.{ReplayFault};

    ghost from_gives = { λ _ f. f ≡ ReplayFault.OutOfMemory };

    fn from(_: AllocError) -> ReplayFault {
        ReplayFault::OutOfMemory
    }
}

/// Makes the leg of the revision of this number, where it has one. In Twice there is none.
fn make<L: Legs, M: MergeBy>(
    alloc: Global,
    setting: &CodeSetting,
    merges: &mut M,
    world: World,
    revision: u32,
    legs: &mut L,
) -> Result<Made, L::Fault>
    requires reached { (w : DefinedWorld (Local ℕ)) × IsReached (run_under setting.now) w
        × IsWorld (run_under setting.now) world w
        × (t : L.Told) × L.keeps legs.old t (run_under setting.now) w world }
    requires size { M.size merges.old ≡ count setting.now.code.vars }
    requires merges { AreMergesOf (run_under setting.now) (M.merges merges.old) }
    ensures made { (w : DefinedWorld (Local ℕ)) → IsReached (run_under setting.now) w
        → IsWorld (run_under setting.now) world w
        → (t : L.Told) → L.keeps legs.old t (run_under setting.now) w world
        → IfOk result (λ k. HasMadeKeeping (L.keeps legs.new t (run_under setting.now))
        (run_under setting.now) w revision k) }
    ensures size { M.size merges.new ≡ M.size merges.old }
    ensures same { M.merges merges.new ≡ M.merges merges.old }
{
    match world {
        World::Twice => Ok(Made::None(World::Twice)),
        World::Live(table) => {
            let (next, answer) = legs.leg(alloc, setting, merges, World::Live(table), revision)?;
            Ok(sort_out(next, answer))
        },
    }
}

/// The world after this schedule from the start of `main`, with this fuel, of which there are at
/// most 4,000,000,000 units, by legs that are made in this way. It is refused at the first entry
/// that names no revision, one that has ended or one that waits, and at any after Twice.
pub fn replay_by<L: Legs<Fault = AllocError>, M: MergeBy>(
    alloc: Global,
    setting: &CodeSetting,
    merges: &mut M,
    fuel: u64,
    schedule: &[u32],
    legs: &mut L,
) -> Result<World, ReplayFault>
    requires fuel { fuel ≤ most_fuel }
    requires first { (t : L.Told)
        × IsKeptFirst (L.keeps legs.old t (run_under setting.now)) (run_under setting.now) fuel }
    requires size { M.size merges.old ≡ count setting.now.code.vars }
    requires merges { AreMergesOf (run_under setting.now) (M.merges merges.old) }
    ensures ok { IfOk result (λ v. (w : DefinedWorld (Local ℕ))
        × Replayed (run_under setting.now) fuel schedule.now w
        × IsReached (run_under setting.now) w × IsWorld (run_under setting.now) v w
        × ((t : L.Told)
        → IsKeptFirst (L.keeps legs.old t (run_under setting.now)) (run_under setting.now) fuel
        → L.keeps legs.new t (run_under setting.now) w v)) }
    ensures fault { IfErr result
        (λ f. IsIllegal (run_under setting.now) fuel schedule.now f) }
    ensures size { M.size merges.new ≡ M.size merges.old }
    ensures same { M.merges merges.new ≡ M.merges merges.old }
{
    let mut world = match World::begin(alloc, setting, fuel) {
        Ok(world) => world,
        Err(_) => return Err(ReplayFault::OutOfMemory),
    };
    for at in 0..schedule.len() {
        let revision = schedule[at];
        match make(alloc, setting, merges, world, revision, legs) {
            Ok(Made::Leg(next)) => world = next,
            Ok(Made::None(same)) => {
                same.give_up();
                return Err(ReplayFault::Illegal { at, revision });
            },
            Err(_) => return Err(ReplayFault::OutOfMemory),
        }
    }
    Ok(world)
}
