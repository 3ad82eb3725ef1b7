//! A revision's own run.

ghost use Rattle.std.specs.Prelude.{◌≡◌, IfOk};
ghost use Rattle.revision_state.specs.Views.{given};
ghost use Rattle.audit_rules.specs.Parts.{joined_by};
ghost use Rattle.audit_rules.specs.Traces.{InPostOrder};
ghost use Rattle.audit_rules.specs.Verdicts.{computed_part};
ghost use Rattle.rev_audit.specs.Own.{BeginsAt, ComesTo, IsUnderWay, StopsAt};

use crate::alone::{Alone, LocalState, join_alone, step_alone};
use crate::joinee::{Joinee, joinee_of};
use audit_rules::Computed;
use rev_num::Path;
use revision_parts::part_of;
use stated_parts::{PathTable, Stated};
use std::alloc::{AllocError, Global};

/// Where a run stands that goes no further by itself.
#[derive(Drop)]
pub(crate) enum Stop {
    /// At a join of the revision at this path.
    Wants(Path),
    Ended,
}

/// What came of a revision's own run, and the children that it forked.
#[derive(Drop)]
pub(crate) struct OwnRun<'a> {
    pub(crate) computed: Computed,
    pub(crate) children: Vec<LocalState<'a>>,
}

/// Steps the revision up to its next join, or to its end, with the children that it forks behind
/// the others.
fn run_on<'a>(
    alloc: Global,
    stated: &Stated<'a>,
    start: LocalState<'a>,
    children: &mut Vec<LocalState<'a>>,
) -> Result<(LocalState<'a>, Stop), AllocError>
    requires { IsUnderWay (given stated.now.setting) stated.now.fuel stated.now.parts.now start.path
        start.local children.old.items }
    ensures goes { IfOk result (λ x. IsUnderWay (given stated.now.setting) stated.now.fuel
        stated.now.parts.now start.entry.path x.0.local children.new.items) }
    ensures path { IfOk result (λ x. x.0.path ≡ start.entry.path) }
    ensures stop { IfOk result (λ x. StopsAt (given stated.now.setting) stated.now.fuel
        stated.now.parts.now start.entry.path x.0.local x.1) }
    ensures joined { IfOk result
        (λ x. joined_by x.0.local.noted ≡ joined_by start.entry.local.noted) }
{
    let mut state = start;
    loop {
        let (next, answer) = step_alone(alloc, &stated.setting, state)?;
        state = next;
        match answer {
            Alone::Moved => {}
            Alone::Forked { child } => children.push(child)?,
            Alone::Wants { on } => return Ok((state, Stop::Wants(on))),
            Alone::Ended => return Ok((state, Stop::Ended)),
        }
    }
}

/// What comes of the own run of a revision that begins in this state. It is run once, up to its end
/// or to a join from which it can't go on.
pub(crate) fn run_alone<'a>(
    alloc: Global,
    stated: &Stated<'a>,
    first: LocalState<'a>,
) -> Result<OwnRun<'a>, AllocError>
    requires order { InPostOrder stated.now.parts.now }
    requires begins { BeginsAt (given stated.now.setting) stated.now.fuel stated.now.parts.now
        first.path first.local }
    ensures { IfOk result (λ o. ComesTo (given stated.now.setting) stated.now.fuel
        stated.now.parts.now first.entry.path first.entry.local (computed_part o.computed)
        o.children.items) }
{
    let mut children = Vec::new(alloc);
    let mut joined = PathTable::new(alloc);
    let mut state = first;
    loop {
        let (next, stop) = run_on(alloc, stated, state, &mut children)?;
        let on = match stop {
            Stop::Wants(on) => on,
            Stop::Ended => {
                let part = part_of(alloc, &stated.places, next.path, &next.local)?;
                let computed = Computed::Part(part);
                return Ok(OwnRun { computed, children });
            }
        };
        match joinee_of(alloc, stated, &joined, &next, &on)? {
            Joinee::Told(end) => state = join_alone(alloc, &stated.setting, next, &end)?,
            Joinee::Twice => return Ok(OwnRun {
                computed: Computed::Twice,
                children,
            }),
            Joinee::Missing => return Ok(OwnRun {
                computed: Computed::Missing,
                children,
            }),
        }
        joined.enter(alloc, &on, 0)?;
    }
}
