//! The audit of the parts from the last to the first.

ghost use Rattle.std.specs.Prelude.{◌<◌, ◌+◌, Some, IfOk, MatchBool, OnOk, length};
ghost use Rattle.revision_state.specs.Views.{given};
ghost use Rattle.audit_rules.specs.Traces.{InPostOrder};
ghost use Rattle.audit_rules.specs.Verdicts.{computed_part};
ghost use Rattle.rev_audit.specs.Sweep.{ComputedAt, Differs, IsKept, IsSamePart};

use crate::run::run_alone;
use crate::starts::Starts;
use audit_rules::Computed;
use stated_parts::{Stated, is_same_part};
use std::alloc::{AllocError, Global};
use trace_diagram::Part;

/// The number of a part that differs from the computed one, with that.
#[derive(Drop)]
pub(crate) struct Difference {
    pub(crate) index: usize,
    pub(crate) computed: Computed,
}

/// Whether the stated part is the computed one.
fn is_same(stated: &Stated, part: &Part, computed: &Computed) -> bool
    ensures { MatchBool result
        (IsSamePart (given stated.now.setting) stated.now.fuel stated.now.parts.now
        (Some part.now) (computed_part computed.now))
        (IsSamePart (given stated.now.setting) stated.now.fuel stated.now.parts.now
        (Some part.now) (computed_part computed.now) → ⊥) }
{
    match computed {
        Computed::Part(own) => is_same_part(part, own),
        Computed::Absent | Computed::Twice | Computed::Missing => false,
    }
}

/// The computed part of the revision whose stated part has this number.
fn computed_at<'a>(
    alloc: Global,
    stated: &Stated<'a>,
    starts: &mut Starts<'a>,
    i: usize,
) -> Result<Computed, AllocError>
    requires within { i < length stated.now.parts.now }
    requires order { InPostOrder stated.now.parts.now }
    requires kept { IsKept (given stated.now.setting) stated.now.fuel stated.now.parts.now (i + 1)
        starts.old.starts.items starts.old.unstated }
    ensures kept { OnOk result (IsKept (given stated.now.setting) stated.now.fuel
        stated.now.parts.now i starts.new.starts.items starts.new.unstated) }
    ensures computed { IfOk result (λ c. ComputedAt (given stated.now.setting) stated.now.fuel
        stated.now.parts.now i (computed_part c)) }
{
    match starts.starts[i].take() {
        Some(first) => {
            let run = run_alone(alloc, stated, first)?;
            starts.keep_all(stated, run.children);
            Ok(run.computed)
        }
        None => Ok(Computed::Absent),
    }
}

/// The first part that differs, if one does.
pub(crate) fn first_difference<'a>(
    alloc: Global,
    stated: &Stated<'a>,
    starts: &mut Starts<'a>,
) -> Result<Option<Difference>, AllocError>
    requires order { InPostOrder stated.now.parts.now }
    requires kept { IsKept (given stated.now.setting) stated.now.fuel stated.now.parts.now
        (length stated.now.parts.now) starts.old.starts.items starts.old.unstated }
    ensures kept { OnOk result (IsKept (given stated.now.setting) stated.now.fuel
        stated.now.parts.now 0 starts.new.starts.items starts.new.unstated) }
    ensures first { IfOk result (Differs (given stated.now.setting) stated.now.fuel
        stated.now.parts.now 0) }
{
    let mut found = None;
    let mut index = stated.parts.len();
    while index > 0 {
        index -= 1;
        let computed = computed_at(alloc, stated, starts, index)?;
        let part = stated.nth_part(index);
        if !is_same(stated, part, &computed) {
            found = Some(Difference { index, computed });
        }
    }
    Ok(found)
}
