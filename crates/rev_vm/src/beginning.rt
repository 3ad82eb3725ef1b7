//! Revisions before their first leg, and how they begin it.

ghost use Rattle.std.specs.Prelude.{◌≡◌, ℕ, IfErr, IfOk, None};
ghost use Rattle.rev_code.specs.State.{State};
ghost use Rattle.code_machine.specs.Local.{CodeRun};
ghost use Rattle.rev_vm.specs.Revisions.{BornAs, StandsAs};
ghost use Rattle.rev_vm.specs.Starts.{run_under};
ghost use Rattle.rev_vm.specs.Values.{StandsFor, runner_delta, runner_group};

use crate::end::{Broken, in_box};
use crate::runner::{Beginning, Runner, Stage};
use crate::spares::Spares;
use crate::starting::begin_with;
use block_run::Memory;
use leg_run::{CodeSetting, RunningRevision};
use std::alloc::Global;
use version_map::Snapshot;

/// The snapshot of a revision that does not begin.
pub(crate) fn let_beginning_go<P: Snapshot>(beginning: Beginning<P>) -> Broken<P>
    ensures { result.snapshot ≡ beginning.snapshot }
{
    let Beginning {
        snapshot,
        block: _,
        args: _,
        fuel: _,
    } = beginning;
    Broken { snapshot }
}

/// A revision before its first leg. It takes one small box, whatever its block and however many
/// locations there are. The error is want of memory.
pub(crate) fn born<P: Snapshot>(
    alloc: Global,
    beginning: Beginning<P>,
) -> Result<Runner<P>, Broken<P>>
    ensures state { (g : CodeRun) (c : State ℕ) → BornAs g P.base P.size beginning c
        → IfOk result (λ r. StandsFor g r c) }
    ensures group { IfOk result (λ r. runner_group r ≡ P.group beginning.snapshot) }
    ensures tables { IfOk result (λ r. runner_delta r ≡ None) }
    ensures broken { IfErr result (λ b. b.snapshot ≡ beginning.snapshot) }
{
    match Box::new(alloc, beginning) {
        Ok(boxed) => Ok(Runner {
            stage: Stage::Born(boxed),
        }),
        Err(failed) => Err(let_beginning_go(failed.value)),
    }
}

/// Makes the first frame of a revision. Its tables of locations, in which nothing is written, are
/// spare ones or are made too. The error is want of memory.
fn begin<P: Snapshot>(
    alloc: Global,
    setting: &CodeSetting,
    beginning: Beginning<P>,
    spares: &mut Spares,
) -> Result<Box<RunningRevision<P>>, Broken<P>>
    requires stands { (c : State ℕ) × BornAs (run_under setting.now) P.base P.size beginning c }
    ensures state { (c : State ℕ) → BornAs (run_under setting.now) P.base P.size beginning c
        → IfOk result (λ r. StandsAs (run_under setting.now) r.value c) }
    ensures group { IfOk result
        (λ r. P.group r.value.memory.snapshot ≡ P.group beginning.snapshot) }
    ensures broken { IfErr result (λ b. P.group b.snapshot ≡ P.group beginning.snapshot) }
{
    let Beginning {
        snapshot,
        block,
        args,
        fuel,
    } = beginning;
    match begin_with(alloc, setting, block, args.as_slice(), fuel, spares) {
        Ok(parts) => in_box(
            alloc,
            RunningRevision {
                memory: Memory {
                    delta: parts.1,
                    first: parts.2,
                    snapshot,
                },
                run: parts.0,
            },
        ),
        Err(_) => Err(Broken { snapshot }),
    }
}

/// The revision in its box, where it stays for the rest of its life. One before its first leg
/// begins. The error is want of memory.
pub(crate) fn begun<P: Snapshot>(
    alloc: Global,
    setting: &CodeSetting,
    runner: Runner<P>,
    spares: &mut Spares,
) -> Result<Box<RunningRevision<P>>, Broken<P>>
    requires stands { (c : State ℕ) × StandsFor (run_under setting.now) runner c }
    ensures state { (c : State ℕ) → StandsFor (run_under setting.now) runner c
        → IfOk result (λ r. StandsAs (run_under setting.now) r.value c) }
    ensures group { IfOk result (λ r. P.group r.value.memory.snapshot ≡ runner_group runner) }
    ensures broken { IfErr result (λ b. P.group b.snapshot ≡ runner_group runner) }
{
    let Runner { stage } = runner;
    match stage {
        Stage::Begun(revision) => Ok(revision),
        Stage::Born(beginning) => begin(alloc, setting, Box::into_inner(beginning), spares),
    }
}
