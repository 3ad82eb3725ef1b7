//! Revisions of a world, by number and by path.

ghost use Rattle.std.specs.Prelude.{◌≡◌, ℕ, IfOk, List};
ghost use Rattle.rev_num.specs.Path.{Path as DefinedPath};
ghost use Rattle.revision_machine.specs.Numbered.{World as DefinedWorld, at_number};
ghost use Rattle.code_machine.specs.Local.{CodeRun, IsVerified, Local};
ghost use Rattle.code_machine_laws.specs.Reached.{IsReached};
ghost use Rattle.code_world.specs.Endings.{Names};
ghost use Rattle.code_world.specs.Tables.{IsWorld};
ghost use Rattle.code_runs.specs.Revisions.{IsNumberIn, path_at};

use crate::paths::{number_of, path_of};
use code_world::{Birth, World};
use rev_num::Path;
use std::alloc::{AllocError, Global};

/// The path of the revision of this number, if there is one.
fn path_by(alloc: Global, births: &[Birth], number: usize) -> Result<Option<Path>, AllocError>
    requires { (paths : List DefinedPath) × Names births.now paths }
    ensures { IfOk result (λ o. (paths : List DefinedPath) → Names births.now paths
        → o ≡ at_number paths number) }
{
    if number < births.len() {
        let path = path_of(alloc, births, number)?;
        Ok(Some(path))
    } else {
        Ok(None)
    }
}

/// The path of the revision of this number: none in Twice, and none where no revision of the world
/// has the number. Want of memory is the one error.
pub fn revision_path(
    alloc: Global,
    world: &World,
    revision: u32,
) -> Result<Option<Path>, AllocError>
    requires { (g : CodeRun) × (w : DefinedWorld (Local ℕ)) × IsWorld g world.now w }
    ensures { IfOk result (λ o. (g : CodeRun) (w : DefinedWorld (Local ℕ)) → IsWorld g world.now w
        → o ≡ path_at w revision) }
{
    match world {
        World::Live(_) => path_by(alloc, world.births(), revision as usize),
        World::Twice => Ok(None),
    }
}

/// The number of the revision of this path: none in Twice, and none where no revision of the world
/// has the path. It takes no memory.
pub fn revision_number(world: &World, path: &Path) -> Option<u32>
    requires { (g : CodeRun) × (w : DefinedWorld (Local ℕ)) × IsVerified g × IsReached g w
        × IsWorld g world.now w }
    ensures { (g : CodeRun) (w : DefinedWorld (Local ℕ)) → IsWorld g world.now w
        → IsNumberIn w path.now result }
{
    match world {
        World::Live(_) => number_of(world.births(), path),
        World::Twice => None,
    }
}
