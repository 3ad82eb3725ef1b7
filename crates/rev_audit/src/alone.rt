//! The steps of one revision: it goes on by itself until it wants another one's end.

ghost use Rattle.std.specs.Prelude.{◌≡◌, ◌+◌, ◌<◌, ◌^◌, [], IfOk, OnOk};
ghost use Rattle.revision_calculus.specs.Calculus.{main};
ghost use Rattle.revision_calculus.specs.Step.{next};
ghost use Rattle.revision_state.specs.Phases.{awaited};
ghost use Rattle.revision_state.specs.Views.{given};
ghost use Rattle.rev_audit.specs.Alone.{
  FitsPhase,
  JoinsAwaited,
  JoinsEnd,
  NamesChild,
  StaysAsItWas,
  alone_event,
  told_state,
};

use rev_num::Path;
use revision_machine::Next;
use revision_state::Setting;
use revision_steps::Local;
use stated_parts::{AloneEnd, told_locations};
use std::alloc::{AllocError, Global};

/// The local state of a revision with its path, by which its children, handles and traps are named.
/// No call changes the path.
#[derive(Drop)]
pub struct LocalState<'a> {
    pub path: Path,
    pub local: Local<'a>,
}

/// What a step of a revision by itself came to.
#[derive(Drop)]
pub enum Alone<'a> {
    /// It made a step of its own.
    Moved,
    /// It forked this child.
    Forked { child: LocalState<'a> },
    /// It is to join the revision at this path.
    Wants { on: Path },
    /// It is done or trapped.
    Ended,
}

/// `main` with this fuel, before its first statement.
pub fn first_alone<'a>(
    alloc: Global,
    setting: &Setting<'a>,
    fuel: u64,
) -> Result<LocalState<'a>, AllocError>
    ensures path { IfOk result (λ a. a.path ≡ []) }
    ensures local { IfOk result (λ a. a.local ≡ main (given setting.now) fuel) }
{
    let local = Local::first(alloc, setting, fuel)?;
    let path = Path::root(alloc);
    Ok(LocalState { path, local })
}

/// The next step or fork of a revision, or which revision it wants, or that it has ended. Its units
/// of fuel and its forks are fewer than 2^32 together. Want of memory is the one error.
#[tactic(auto, using(crate::proofs::Fits::fits))]
pub fn step_alone<'a>(
    alloc: Global,
    setting: &Setting<'a>,
    state: LocalState<'a>,
) -> Result<(LocalState<'a>, Alone<'a>), AllocError>
    requires { state.local.fuel + state.local.forks < 2 ^ 32 }
    ensures path { IfOk result (λ a. a.0.path ≡ state.entry.path) }
    ensures event { IfOk result
        (λ a. alone_event a.1 a.0.local
        ≡ next (given setting.now) state.entry.path state.entry.local) }
    ensures child { IfOk result
        (λ a. NamesChild state.entry.path state.entry.local.forks a.1) }
    ensures still { IfOk result (λ a. StaysAsItWas a.1 state.entry.local a.0.local) }
    ensures phase { IfOk result (λ a. FitsPhase state.entry.local.phase a.1) }
{
    let LocalState { path, mut local } = state;
    let made = local.forks();
    let answer = match local.advance(alloc, setting, &path)? {
        Next::Moved => Alone::Moved,
        Next::Forked(child) => Alone::Forked {
            child: LocalState {
                path: path.child(alloc, made)?,
                local: child,
            },
        },
        Next::Joins(on) => Alone::Wants { on },
        Next::Ended => Alone::Ended,
    };
    Ok((LocalState { path, local }, answer))
}

/// The revision after it joined the one that it wants, which ended so, with as many locations; it
/// stays as it is where it wants none. The two have less than 2^64 units of fuel together. Want of
/// memory is the one error.
pub fn join_alone<'a>(
    alloc: Global,
    setting: &Setting<'a>,
    state: LocalState<'a>,
    joinee: &AloneEnd,
) -> Result<LocalState<'a>, AllocError>
    requires { state.local.fuel + joinee.now.fuel < 2 ^ 64 }
    ensures path { IfOk result (λ a. a.path ≡ state.entry.path) }
    ensures local { IfOk result
        (λ a. JoinsAwaited (given setting.now) state.entry.path state.entry.local
        (awaited state.entry.local.phase) joinee.now a.local) }
{
    let LocalState { path, mut local } = state;
    join_awaited(alloc, setting, &path, &mut local, joinee)?;
    Ok(LocalState { path, local })
}

/// A state with this end and so many locations.
fn state_of<'a>(alloc: Global, end: &AloneEnd, count: usize) -> Result<Local<'a>, AllocError>
    ensures { IfOk result (λ l. l ≡ told_state count end.now) }
{
    let locations = told_locations(alloc, count, &end.written)?;
    let text = Vec::from_slice(alloc, &end.text)?;
    let trap = match &end.trap {
        None => None,
        Some(trap) => Some(trap.copy(alloc)?),
    };
    Local::ended(alloc, locations, text, end.fuel, trap)
}

/// Lets the revision at `path` join the one at `on`, which ended so.
#[tactic(auto, using(crate::proofs::ToldEnds::joins_told))]
fn join_end<'a>(
    alloc: Global,
    setting: &Setting<'a>,
    path: &Path,
    local: &mut Local<'a>,
    on: &Path,
    end: &AloneEnd,
) -> Result<(), AllocError>
    requires { local.old.fuel + end.now.fuel < 2 ^ 64 }
    ensures { OnOk result
        (JoinsEnd (given setting.now) path.now local.old on.now end.now local.new) }
{
    let ended = state_of(alloc, end, local.locations().len())?;
    local.settle(alloc, setting, path, on, &ended)
}

/// Lets the revision at `path` join the one that it waits for, which ended so, if it waits.
fn join_awaited<'a>(
    alloc: Global,
    setting: &Setting<'a>,
    path: &Path,
    local: &mut Local<'a>,
    end: &AloneEnd,
) -> Result<(), AllocError>
    requires { local.old.fuel + end.now.fuel < 2 ^ 64 }
    ensures { OnOk result
        (JoinsAwaited (given setting.now) path.now local.old (awaited local.old.phase) end.now
        local.new) }
{
    match awaited(alloc, local)? {
        Some(on) => join_end(alloc, setting, path, local, &on, end),
        None => Ok(()),
    }
}

/// The path of the revision that is joined, at a join.
fn awaited(alloc: Global, local: &Local) -> Result<Option<Path>, AllocError>
    ensures { IfOk result (λ on. on ≡ awaited local.now.phase) }
{
    match local.awaited() {
        Some(on) => Ok(Some(on.copy(alloc)?)),
        None => Ok(None),
    }
}
