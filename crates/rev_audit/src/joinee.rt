//! What comes of a join, by what is stated of the joinee.

ghost use Rattle.std.specs.Prelude.{IfOk, MatchBool};
ghost use Rattle.revision_calculus.specs.Calculus.{calculus};
ghost use Rattle.revision_state.specs.Views.{given};
ghost use Rattle.audit_rules.specs.Parts.{OwnFits, calculus_parts, joined_by};
ghost use Rattle.audit_rules.specs.Audited.{JoinedEarlier};
ghost use Rattle.audit_rules.specs.Traces.{InPostOrder, part_at};
ghost use Rattle.rev_audit.specs.Own.{IsJoinee, JoinedBefore, TakesOrNot};
ghost use Rattle.stated_parts.specs.Tables.{IsSetOf};

use crate::alone::LocalState;
use rev_num::Path;
use stated_parts::{AloneEnd, PathTable, Stated, told_end};
use std::alloc::{AllocError, Global};

/// What comes of a join.
#[derive(Drop)]
pub(crate) enum Joinee {
    /// The joiner takes this end.
    Told(AloneEnd),
    /// The joiner joined the revision before, or a stated part earlier in post-order did.
    Twice,
    /// It has no stated part, or one that can't be taken.
    Missing,
}

/// Whether a stated part before this revision's in post-order lists the other as joined.
fn is_joined_earlier(stated: &Stated, path: &Path, on: &Path) -> bool
    requires { InPostOrder stated.now.parts.now }
    ensures { MatchBool result
        (JoinedEarlier (calculus (given stated.now.setting))
        (calculus_parts (given stated.now.setting) stated.now.fuel) (part_at stated.now.parts.now)
        path.now on.now)
        (JoinedEarlier (calculus (given stated.now.setting))
        (calculus_parts (given stated.now.setting) stated.now.fuel) (part_at stated.now.parts.now)
        path.now on.now → ⊥) }
{
    match stated.joiners.find(on) {
        Some(i) => {
            let part = stated.nth_part(i);
            Path::after_in_post_order(path, &part.path)
        }
        None => false,
    }
}

/// Whether the revision joined the other before, or a stated part before its own in post-order did.
fn is_twice(stated: &Stated, joined: &PathTable, state: &LocalState, on: &Path) -> bool
    requires order { InPostOrder stated.now.parts.now }
    requires joined { IsSetOf joined.now.map (joined_by state.now.local.noted) }
    ensures { MatchBool result
        (JoinedBefore (given stated.now.setting) stated.now.fuel stated.now.parts.now
        state.now.path state.now.local on.now)
        (JoinedBefore (given stated.now.setting) stated.now.fuel stated.now.parts.now
        state.now.path state.now.local on.now → ⊥) }
{
    if joined.find(on).is_some() {
        return true;
    }
    is_joined_earlier(stated, &state.path, on)
}

/// The end that the stated part of the revision tells, if the joiner can take it.
fn taken_end(
    alloc: Global,
    stated: &Stated,
    state: &LocalState,
    on: &Path,
) -> Result<Option<AloneEnd>, AllocError>
    requires order { InPostOrder stated.now.parts.now }
    requires fits { OwnFits (given stated.now.setting) stated.now.fuel state.now.path
        state.now.local }
    ensures { IfOk result (TakesOrNot
        (given stated.now.setting) stated.now.fuel stated.now.parts.now
        state.now.path state.now.local on.now) }
{
    let Some(part) = stated.part(on) else {
        return Ok(None);
    };
    let room = stated.fuel - state.local.fuel() - state.local.forks() as u64;
    if part.fuel > room {
        return Ok(None);
    }
    told_end(alloc, stated, state.local.locations(), part)
}

/// What comes of the join of the revision at `on`.
pub(crate) fn joinee_of(
    alloc: Global,
    stated: &Stated,
    joined: &PathTable,
    state: &LocalState,
    on: &Path,
) -> Result<Joinee, AllocError>
    requires order { InPostOrder stated.now.parts.now }
    requires fits { OwnFits (given stated.now.setting) stated.now.fuel state.now.path
        state.now.local }
    requires joined { IsSetOf joined.now.map (joined_by state.now.local.noted) }
    ensures { IfOk result (IsJoinee (given stated.now.setting) stated.now.fuel stated.now.parts.now
        state.now.path state.now.local on.now) }
{
    if is_twice(stated, joined, state, on) {
        return Ok(Joinee::Twice);
    }
    match taken_end(alloc, stated, state, on)? {
        Some(end) => Ok(Joinee::Told(end)),
        None => Ok(Joinee::Missing),
    }
}
