//! Worlds, and legs of them.

ghost use Rattle.std.specs.Prelude.{◌≡◌, ℕ, IfOk};
ghost use Rattle.rev_vm.specs.Meaning.{AreMergesOf};
ghost use Rattle.block_run.specs.Area.{count};
ghost use Rattle.code_machine.specs.Local.{Local};
ghost use Rattle.code_machine_laws.specs.Reached.{IsReached};
ghost use Rattle.revision_machine.specs.Numbered.{Entries, Listing, World as DefinedWorld};
ghost use Rattle.rev_vm.specs.Starts.{run_under};
ghost use Rattle.code_world.specs.Answers.{LegAnswers, world_after};
ghost use Rattle.code_world.specs.Meetings.{HasNoted};
ghost use Rattle.code_world.specs.Touches.{TouchesIn};
ghost use Rattle.code_world.specs.Tables.{IsWorld};

use crate::answer::LegAnswer;
use crate::noted::{NotedLeg, noted_end};
use crate::table::Table;
use leg_run::CodeSetting;
use std::alloc::{AllocError, Global};
use version_map::MergeBy;

/// A world of revisions that run code. Running revisions may not be let go by themselves:
/// `give_up` ends them.
pub enum World {
    Live(Table),
    /// A revision was joined a second time.
    Twice,
}

impl World {
    /// Lets all revisions go.
    pub fn give_up(self) {
        match self {
            World::Live(table) => table.give_up(),
            World::Twice => {},
        }
    }
}

/// The world of this table after a leg that came out so.
pub(crate) fn world_of(table: Table, answer: LegAnswer) -> World
    ensures { result ≡ world_after table answer }
{
    match answer {
        LegAnswer::Twice => {
            table.give_up();
            World::Twice
        },
        LegAnswer::Forked { .. }
        | LegAnswer::Joined { .. }
        | LegAnswer::Ended
        | LegAnswer::Trapped
        | LegAnswer::Waits { .. }
        | LegAnswer::NoSuch
        | LegAnswer::Over => World::Live(table),
    }
}

/// The world after the leg of the revision of this number, and how the leg came out. Where there is
/// none the world is as before, but for a revision that was found to wait, which then stands at its
/// join. A leg leaves each other revision as it was, but for one that it joins, and of that the
/// world keeps what it left. Want of memory is the one error, and the world is lost.
pub fn leg<M: MergeBy>(
    alloc: Global,
    setting: &CodeSetting,
    merges: &mut M,
    world: World,
    revision: u32,
) -> Result<(World, LegAnswer), AllocError>
    requires reached { (w : DefinedWorld (Local ℕ)) × IsReached (run_under setting.now) w
        × IsWorld (run_under setting.now) world w }
    requires size { M.size merges.old ≡ count setting.now.code.vars }
    requires merges { AreMergesOf (run_under setting.now) (M.merges merges.old) }
    ensures answer { (w : DefinedWorld (Local ℕ)) → IsReached (run_under setting.now) w
        → IsWorld (run_under setting.now) world w
        → IfOk result (λ r. LegAnswers (run_under setting.now) w revision r.1 r.0) }
    ensures touches { IfOk result (λ r. TouchesIn world revision r.1 r.0) }
    ensures size { M.size merges.new ≡ M.size merges.old }
    ensures same { M.merges merges.new ≡ M.merges merges.old }
{
    let (next, noted) = leg_meeting(alloc, setting, merges, world, revision)?;
    Ok((next, noted.answer))
}

/// As `leg`, and the entry that the leg adds to the revision's list of forks and joins.
pub fn leg_meeting<M: MergeBy>(
    alloc: Global,
    setting: &CodeSetting,
    merges: &mut M,
    world: World,
    revision: u32,
) -> Result<(World, NotedLeg), AllocError>
    requires reached { (w : DefinedWorld (Local ℕ)) × IsReached (run_under setting.now) w
        × IsWorld (run_under setting.now) world w }
    requires size { M.size merges.old ≡ count setting.now.code.vars }
    requires merges { AreMergesOf (run_under setting.now) (M.merges merges.old) }
    ensures answer { (w : DefinedWorld (Local ℕ)) → IsReached (run_under setting.now) w
        → IsWorld (run_under setting.now) world w
        → IfOk result (λ r. LegAnswers (run_under setting.now) w revision r.1.answer r.0) }
    ensures noted { (w : Entries (Local ℕ)) → IsReached (run_under setting.now) (Listing w)
        → IsWorld (run_under setting.now) world (Listing w)
        → IfOk result (λ r. HasNoted (run_under setting.now) w revision r.1.answer r.1.meeting) }
    ensures touches { IfOk result (λ r. TouchesIn world revision r.1.answer r.0) }
    ensures size { M.size merges.new ≡ M.size merges.old }
    ensures same { M.merges merges.new ≡ M.merges merges.old }
{
    let mut table = match world {
        World::Live(table) => table,
        World::Twice => return Ok((World::Twice, noted_end(LegAnswer::Twice))),
    };
    match table.leg(alloc, setting, merges, revision) {
        Ok(noted) => Ok((world_of(table, noted.answer), noted)),
        Err(error) => {
            table.give_up();
            Err(error)
        },
    }
}
