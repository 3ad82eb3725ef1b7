//! The audit of a trace.

ghost use Rattle.std.specs.Prelude.{◌≤◌, Some, IfOk, MatchBool};
ghost use Rattle.rev_num.specs.Limits.{most_fuel};
ghost use Rattle.rev_syntax.specs.View.{program as whole};
ghost use Rattle.revision_state.specs.Views.{given};
ghost use Rattle.trace_diagram.specs.Traces.{IsTrace};
ghost use Rattle.audit_rules.specs.Traces.{InPostOrder};
ghost use Rattle.audit_rules.specs.Verdicts.{Audits};
ghost use Rattle.rev_audit.specs.Sweep.{IsAhead, IsBehind, IsSwept};

use crate::alone::LocalState;
use crate::run::run_alone;
use crate::starts::Starts;
use crate::sweep::{Difference, first_difference};
use audit_rules::Verdict;
use rev_num::Path;
use stated_parts::Stated;
use std::alloc::{AllocError, Global};
use trace_diagram::Trace;
use typed_programs::Typed;

/// The verdict by the first part that differs, which comes before the revision without a part, or a
/// yes where no part differs and each revision that begins has one.
fn of_parts<'a>(
    alloc: Global,
    stated: &Stated<'a>,
    unstated: Option<LocalState<'a>>,
    found: Option<Difference>,
) -> Result<Verdict, AllocError>
    requires order { InPostOrder stated.now.parts.now }
    requires swept { IsSwept (given stated.now.setting) stated.now.fuel stated.now.parts.now
        unstated
        found }
    requires ahead { IsAhead (given stated.now.setting) stated.now.fuel stated.now.parts.now
        unstated
        found }
    ensures { IfOk result (Audits (given stated.now.setting) stated.now.fuel
        (record { parts = stated.now.parts.now })) }
{
    match found {
        Some(difference) => {
            let part = stated.nth_part(difference.index);
            Ok(Verdict::No {
                revision: part.path.copy(alloc)?,
                stated: Some(part.copy(alloc)?),
                computed: difference.computed,
            })
        }
        None => Ok(Verdict::Yes),
    }
}

/// The verdict by a revision that begins and has no part, where no part before it differs.
fn of_unstated<'a>(
    alloc: Global,
    stated: &Stated<'a>,
    first: LocalState<'a>,
    found: Option<Difference>,
) -> Result<Verdict, AllocError>
    requires order { InPostOrder stated.now.parts.now }
    requires swept { IsSwept (given stated.now.setting) stated.now.fuel stated.now.parts.now
        (Some first) found }
    requires behind { IsBehind (given stated.now.setting) stated.now.fuel stated.now.parts.now first
        found }
    ensures { IfOk result (Audits (given stated.now.setting) stated.now.fuel
        (record { parts = stated.now.parts.now })) }
{
    let revision = first.path.copy(alloc)?;
    let run = run_alone(alloc, stated, first)?;
    Ok(Verdict::No {
        revision,
        stated: None,
        computed: run.computed,
    })
}

/// Whether the part that differs comes before this revision, which has none.
fn is_ahead(stated: &Stated, first: &LocalState, found: &Option<Difference>) -> bool
    requires { IsSwept (given stated.now.setting) stated.now.fuel stated.now.parts.now
        (Some first.now) found.now }
    ensures { MatchBool result
        (IsAhead (given stated.now.setting) stated.now.fuel stated.now.parts.now (Some first.now)
        found.now)
        (IsBehind (given stated.now.setting) stated.now.fuel stated.now.parts.now first.now
        found.now) }
{
    match found {
        Some(difference) => {
            let part = stated.nth_part(difference.index);
            Path::after_in_post_order(&first.path, &part.path)
        }
        None => false,
    }
}

/// The verdict by the first part that differs and the first revision that begins and has none.
fn verdict<'a>(
    alloc: Global,
    stated: &Stated<'a>,
    unstated: Option<LocalState<'a>>,
    found: Option<Difference>,
) -> Result<Verdict, AllocError>
    requires order { InPostOrder stated.now.parts.now }
    requires swept { IsSwept (given stated.now.setting) stated.now.fuel stated.now.parts.now
        unstated
        found }
    ensures { IfOk result (Audits (given stated.now.setting) stated.now.fuel
        (record { parts = stated.now.parts.now })) }
{
    match unstated {
        Some(first) => {
            if is_ahead(stated, &first, &found) {
                return of_parts(alloc, stated, Some(first), found);
            }
            of_unstated(alloc, stated, first, found)
        }
        None => of_parts(alloc, stated, None, found),
    }
}

/// Whether the trace, which has the form of one, is that of the program with these inputs, the most
/// fuel that a fork gives, and this fuel, of which there are at most 4,000,000,000 units. Each
/// revision is run by itself, from the state that its forker's own run gives it, where each join
/// takes what the stated part of the joinee tells. Want of memory is the one error.
pub fn audit(
    alloc: Global,
    typed: &Typed,
    input: &[i64],
    share: u64,
    fuel: u64,
    trace: &Trace,
) -> Result<Verdict, AllocError>
    requires form { IsTrace trace.now }
    requires fuel { fuel ≤ most_fuel }
    ensures { IfOk result
        (λ v. Audits
        (record {
          program = whole typed.now.expanded.program;
          inputs = input.now;
          share = share;
        }) fuel trace.now v) }
{
    let stated = Stated::new(alloc, typed, input, share, fuel, trace.parts.as_slice())?;
    let mut starts = Starts::of_main(alloc, &stated)?;
    let found = first_difference(alloc, &stated, &mut starts)?;
    verdict(alloc, &stated, starts.unstated, found)
}
