//! A run to its end, by the least number that has a leg, and by legs that are made in some way.

ghost use Rattle.std.specs.Prelude.{◌≡◌, ◌≤◌, ◌<◌, ◌^◌, ℕ, IfErr, IfOk, length};
ghost use Rattle.fun_run.specs.Merging.{AreMergesOf};
ghost use Rattle.block_run.specs.Area.{count};
ghost use Rattle.code_machine.specs.Local.{Local};
ghost use Rattle.code_world.specs.Tables.{IsWorld};
ghost use Rattle.code_machine_laws.specs.Reached.{IsReached};
ghost use Rattle.world_runs.specs.Queue.{HasReady};
ghost use Rattle.revision_machine.specs.Numbered.{World as DefinedWorld};
ghost use Rattle.code_world.specs.LegOutcomes.{run_under};
ghost use Rattle.world_runs.specs.Covers.{CoversWorld, CoversWorldBut};
ghost use Rattle.world_runs.specs.KeptByLegs.{HasFinishedKeeping, HasLeastKeeping, HasTriedKeeping};

use crate::after_leg::note;
use crate::legs::Legs;
use crate::made::{Made, sort_out};
use crate::queue::ReadyQueue;
use code_world::{CodeSetting, World};
use std::alloc::{AllocError, Global};
use version_map::MergeBy;

/// Makes the leg of a revision that was taken out of the queue, where it has one, and notes how it
/// came out.
fn try_leg<L: Legs, M: MergeBy>(
    alloc: Global,
    setting: &CodeSetting,
    merges: &mut M,
    world: World,
    queue: &mut ReadyQueue,
    legs: &mut L,
    number: u32,
) -> Result<Made, L::Fault>
    requires reached { (w : DefinedWorld (Local ℕ)) × IsReached (run_under setting.now) w
        × IsWorld (run_under setting.now) world w
        × CoversWorldBut (run_under setting.now) w queue.old number
        × (t : L.Told) × L.keeps legs.old t (run_under setting.now) w world }
    requires size { M.size merges.old ≡ count setting.now.code.vars }
    requires merges { AreMergesOf (run_under setting.now) (M.merges merges.old) }
    ensures tried { (w : DefinedWorld (Local ℕ)) → IsReached (run_under setting.now) w
        → IsWorld (run_under setting.now) world w
        → CoversWorldBut (run_under setting.now) w queue.old number
        → (t : L.Told) → L.keeps legs.old t (run_under setting.now) w world
        → IfOk result (λ k. HasTriedKeeping (L.keeps legs.new t (run_under setting.now))
        (run_under setting.now) w number k queue.old queue.new) }
    ensures stopped { (w : DefinedWorld (Local ℕ)) → IsReached (run_under setting.now) w
        → IsWorld (run_under setting.now) world w
        → (t : L.Told) → L.keeps legs.old t (run_under setting.now) w world
        → IfErr result (λ f. L.stops legs.new t (run_under setting.now) f) }
    ensures size { M.size merges.new ≡ M.size merges.old }
    ensures same { M.merges merges.new ≡ M.merges merges.old }
{
    let table = match world {
        World::Twice => return Ok(Made::None(World::Twice)),
        World::Live(table) => table,
    };
    let (next, answer) = legs.leg(alloc, setting, merges, World::Live(table), number)?;
    match note(alloc, queue, number, answer) {
        Ok(()) => Ok(sort_out(next, answer)),
        Err(error) => {
            next.give_up();
            Err(legs.out_of_memory(error))
        },
    }
}

/// Makes the leg of the least number that has one.
fn make_least<L: Legs, M: MergeBy>(
    alloc: Global,
    setting: &CodeSetting,
    merges: &mut M,
    mut world: World,
    queue: &mut ReadyQueue,
    legs: &mut L,
) -> Result<Made, L::Fault>
    requires reached { (w : DefinedWorld (Local ℕ)) × IsReached (run_under setting.now) w
        × IsWorld (run_under setting.now) world w
        × CoversWorld (run_under setting.now) w queue.old
        × (t : L.Told) × L.keeps legs.old t (run_under setting.now) w world }
    requires size { M.size merges.old ≡ count setting.now.code.vars }
    requires merges { AreMergesOf (run_under setting.now) (M.merges merges.old) }
    ensures least { (w : DefinedWorld (Local ℕ)) → IsReached (run_under setting.now) w
        → IsWorld (run_under setting.now) world w
        → CoversWorld (run_under setting.now) w queue.old
        → (t : L.Told) → L.keeps legs.old t (run_under setting.now) w world
        → IfOk result (λ k. HasLeastKeeping (L.keeps legs.new t (run_under setting.now))
        (run_under setting.now) w k queue.new) }
    ensures stopped { (w : DefinedWorld (Local ℕ)) → IsReached (run_under setting.now) w
        → IsWorld (run_under setting.now) world w
        → CoversWorld (run_under setting.now) w queue.old
        → (t : L.Told) → L.keeps legs.old t (run_under setting.now) w world
        → IfErr result (λ f. L.stops legs.new t (run_under setting.now) f) }
    ensures size { M.size merges.new ≡ M.size merges.old }
    ensures same { M.merges merges.new ≡ M.merges merges.old }
{
    while let Some(number) = queue.take() {
        match try_leg(alloc, setting, merges, world, queue, legs, number)? {
            Made::Leg(next) => return Ok(Made::Leg(next)),
            Made::None(same) => world = same,
        }
    }
    Ok(Made::None(world))
}

/// All numbers of a world of this many revisions as ready.
fn all_ready(alloc: Global, count: usize) -> Result<ReadyQueue, AllocError>
    requires { count ≤ 2 ^ 32 }
    ensures count { IfOk result (λ q. length q.waiters.items ≡ count) }
    ensures ready { IfOk result (λ q. (m : ℕ) → m < count → HasReady q m) }
{
    let mut queue = ReadyQueue::new(alloc);
    for number in 0..count {
        queue.grow(alloc)?;
        queue.enter(number as u32)?;
    }
    Ok(queue)
}

/// Makes the leg of the least number that has one, time after time, until none has, in this way.
/// After an error the world is lost.
pub fn finish_by<L: Legs, M: MergeBy>(
    alloc: Global,
    setting: &CodeSetting,
    merges: &mut M,
    mut world: World,
    legs: &mut L,
) -> Result<World, L::Fault>
    requires reached { (w : DefinedWorld (Local ℕ)) × IsReached (run_under setting.now) w
        × IsWorld (run_under setting.now) world w
        × (t : L.Told) × L.keeps legs.old t (run_under setting.now) w world }
    requires size { M.size merges.old ≡ count setting.now.code.vars }
    requires merges { AreMergesOf (run_under setting.now) (M.merges merges.old) }
    ensures finished { (w : DefinedWorld (Local ℕ)) → IsReached (run_under setting.now) w
        → IsWorld (run_under setting.now) world w
        → (t : L.Told) → L.keeps legs.old t (run_under setting.now) w world
        → IfOk result (λ v. HasFinishedKeeping (L.keeps legs.new t (run_under setting.now))
        (run_under setting.now) w v) }
    ensures stopped { (w : DefinedWorld (Local ℕ)) → IsReached (run_under setting.now) w
        → IsWorld (run_under setting.now) world w
        → (t : L.Told) → L.keeps legs.old t (run_under setting.now) w world
        → IfErr result (λ f. L.stops legs.new t (run_under setting.now) f) }
    ensures size { M.size merges.new ≡ M.size merges.old }
    ensures same { M.merges merges.new ≡ M.merges merges.old }
{
    let mut queue = match all_ready(alloc, world.count()) {
        Ok(queue) => queue,
        Err(error) => {
            world.give_up();
            return Err(legs.out_of_memory(error));
        },
    };
    for _ in 0..u64::MAX {
        match make_least(alloc, setting, merges, world, &mut queue, legs)? {
            Made::Leg(next) => world = next,
            Made::None(end) => return Ok(end),
        }
    }
    world.give_up();
    unreachable!()
}
