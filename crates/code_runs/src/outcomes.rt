//! The outcome of a world, from what its `main` left.

ghost use Rattle.std.specs.Prelude.{◌≡◌, ℕ, IfOk, List, Some};
ghost use Rattle.rev_num.specs.Path.{Path as DefinedPath};
ghost use Rattle.revision_machine.specs.Laws.{local_of};
ghost use Rattle.revision_machine.specs.Machine.{Entry};
ghost use Rattle.revision_machine.specs.Numbered.{Entries, Listing, at_number, paths_of};
ghost use Rattle.code_machine.specs.Local.{Local};
ghost use Rattle.code_machine.specs.Outcome as machine;
ghost use Rattle.rev_vm.specs.Opening.{words_at_start};
ghost use Rattle.rev_vm.specs.Starts.{run_under};
ghost use Rattle.code_world.specs.Endings.{Names};
ghost use Rattle.code_runs.specs.Births.{path_in};
ghost use Rattle.code_runs.specs.Ends.{IsEndOfMain};
ghost use Rattle.code_runs.specs.Words.{AreInside, written_over};

use crate::paths::path_of;
use crate::values::shown_values;
use code_world::Birth;
use leg_run::CodeSetting;
use rev_code::Code;
use rev_num::{Items, Outcome, Path, Trap};
use rev_vm::start_words;
use std::alloc::{AllocError, Global};
use version_map::{CodeTrap, EndValue, Finish, Written};

/// The words of all locations: those that were written, and else those with which they start.
fn view_words(alloc: Global, code: &Code, written: &[Written]) -> Result<Vec<u64>, AllocError>
    requires { AreInside (words_at_start code.now.vars) written.now }
    ensures { IfOk result
        (λ ws. ws.items ≡ written_over (words_at_start code.now.vars) written.now) }
{
    let mut words = start_words(alloc, code)?;
    for one in written {
        words[one.location as usize] = one.value;
    }
    Ok(words)
}

/// The path of the revision that trapped first, which is `main` where no other did.
fn origin_of(alloc: Global, births: &[Birth], origin: Option<u32>) -> Result<Path, AllocError>
    requires { (paths : List DefinedPath) × Names births.now paths }
    ensures { IfOk result (λ p. (paths : List DefinedPath) → Names births.now paths
        → p ≡ machine.origin_path (path_in paths) origin) }
{
    match origin {
        None => Ok(Path::root(alloc)),
        Some(number) => path_of(alloc, births, number as usize),
    }
}

/// A trap of `main`, whose origin is a path.
fn trap_of(alloc: Global, births: &[Birth], trap: CodeTrap) -> Result<Trap, AllocError>
    requires { (paths : List DefinedPath) × Names births.now paths }
    ensures { IfOk result (λ t. (paths : List DefinedPath) → Names births.now paths
        → t ≡ record {
          cause = trap.cause;
          line = trap.line;
          origin = machine.origin_path (path_in paths) trap.origin;
        }) }
{
    let origin = origin_of(alloc, births, trap.origin)?;
    Ok(Trap {
        cause: trap.cause,
        line: trap.line,
        origin,
    })
}

/// The outcome of a world whose `main` left this: its text, which is moved and not copied, the
/// values of its view by location with their names, and how it ended. `births` is where each
/// revision of the world comes from, by number; a handle is shown as the path of its revision, and
/// the origin of a trap too. It takes a step for each location, each write and each number of a
/// path, though no clause says so. Want of memory is the one error.
pub fn outcome_of(
    alloc: Global,
    setting: &CodeSetting,
    births: &[Birth],
    end: EndValue,
) -> Result<Outcome, AllocError>
    requires named { (paths : List DefinedPath) × Names births.now paths }
    requires ended { (l : Local ℕ) × IsEndOfMain (run_under setting.now) l end }
    ensures main { IfOk result (λ o. (l : Local ℕ) (paths : List DefinedPath)
        → IsEndOfMain (run_under setting.now) l end → Names births.now paths
        → machine.main_outcome (path_in paths) (run_under setting.now) l ≡ Some o) }
    ensures world { IfOk result
        (λ o. (w : Entries (Local ℕ)) (r : DefinedPath) (e : Entry (Local ℕ))
        → at_number w 0 ≡ Some (r, e) → IsEndOfMain (run_under setting.now) (local_of e) end
        → Names births.now (paths_of w)
        → machine.outcome (run_under setting.now) (Listing w) ≡ Some o) }
{
    let EndValue {
        written,
        text,
        fuel: _,
        finish,
    } = end;
    let words = view_words(alloc, setting.code(), written.as_slice())?;
    let shown = shown_values(
        alloc,
        setting.code().vars.as_slice(),
        births,
        words.as_slice(),
    )?;
    let values = Items::from_vec(shown);
    match finish {
        Finish::Done => Ok(Outcome::Done { text, values }),
        Finish::Trapped(trap) => {
            let trap = trap_of(alloc, births, trap)?;
            Ok(Outcome::Trapped { text, values, trap })
        },
    }
}
