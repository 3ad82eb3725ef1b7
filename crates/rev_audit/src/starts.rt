//! Where revisions begin.

ghost use Rattle.std.specs.Prelude.{◌≡◌, None, IfOk, length, replicate};
ghost use Rattle.typed_programs.specs.Least.{Among};
ghost use Rattle.revision_state.specs.Views.{given};
ghost use Rattle.trace_diagram.specs.Traces.{MainIsLast};
ghost use Rattle.audit_rules.specs.Traces.{InPostOrder};
ghost use Rattle.rev_audit.specs.Own.{BeginsAt};
ghost use Rattle.rev_audit.specs.Sweep.{Grows, Holds, IsKept, IsStarts, sooner_of};

use crate::alone::{LocalState, first_alone};
use rev_num::Path;
use stated_parts::Stated;
use std::alloc::{AllocError, Global};

/// Where the revisions with a stated part begin, by the numbers of their parts, and the first in
/// post-order that begins and has none.
#[derive(Drop)]
pub(crate) struct Starts<'a> {
    pub(crate) starts: Vec<Option<LocalState<'a>>>,
    pub(crate) unstated: Option<LocalState<'a>>,
}

/// No start for so many parts.
fn no_starts<'a>(alloc: Global, count: usize) -> Result<Vec<Option<LocalState<'a>>>, AllocError>
    ensures { IfOk result (λ v. v.items ≡ replicate count None) }
{
    let mut starts = Vec::with_capacity(alloc, count)?;
    for _k in 0..count {
        starts.push(None)?;
    }
    Ok(starts)
}

/// The one that comes before the other in post-order, if there is another.
fn sooner<'a>(one: LocalState<'a>, other: Option<LocalState<'a>>) -> Option<LocalState<'a>>
    ensures { result ≡ sooner_of one.entry other.entry }
{
    match other {
        Some(other) => {
            if Path::after_in_post_order(&one.path, &other.path) {
                Some(other)
            } else {
                Some(one)
            }
        }
        None => Some(one),
    }
}

impl<'a> Starts<'a> {
    /// `main` alone begins.
    pub(crate) fn of_main(alloc: Global, stated: &Stated<'a>) -> Result<Starts<'a>, AllocError>
        requires { MainIsLast stated.now.parts.now }
        ensures { IfOk result (λ t. IsKept (given stated.now.setting) stated.now.fuel
            stated.now.parts.now (length stated.now.parts.now) t.starts.items t.unstated) }
    {
        let first = first_alone(alloc, &stated.setting, stated.fuel)?;
        let none = no_starts(alloc, stated.parts.len())?;
        let mut starts = Starts {
            starts: none,
            unstated: None,
        };
        starts.keep(stated, first);
        Ok(starts)
    }

    /// Keeps where a revision begins.
    pub(crate) fn keep(&mut self, stated: &Stated<'a>, child: LocalState<'a>)
        requires order { InPostOrder stated.now.parts.now }
        requires kept { IsStarts (given stated.now.setting) stated.now.fuel stated.now.parts.now
            self.old.starts.items self.old.unstated }
        requires begins { BeginsAt (given stated.now.setting) stated.now.fuel stated.now.parts.now
            child.path child.local }
        ensures kept { IsStarts (given stated.now.setting) stated.now.fuel stated.now.parts.now
            self.new.starts.items self.new.unstated }
        ensures grows { Grows self.old.starts.items self.new.starts.items self.old.unstated
            self.new.unstated }
        ensures holds { Holds (given stated.now.setting) stated.now.fuel stated.now.parts.now
            (length stated.now.parts.now) self.new.starts.items self.new.unstated child.entry }
    {
        match stated.indices.find(&child.path) {
            Some(k) => self.starts[k] = Some(child),
            None => {
                let other = self.unstated.take();
                self.unstated = sooner(child, other);
            }
        }
    }

    /// Keeps where these revisions begin.
    pub(crate) fn keep_all(&mut self, stated: &Stated<'a>, mut children: Vec<LocalState<'a>>)
        requires order { InPostOrder stated.now.parts.now }
        requires kept { IsStarts (given stated.now.setting) stated.now.fuel stated.now.parts.now
            self.old.starts.items self.old.unstated }
        requires begin { (x : _) → Among children.items x → BeginsAt (given stated.now.setting)
            stated.now.fuel stated.now.parts.now x.path x.local }
        ensures kept { IsStarts (given stated.now.setting) stated.now.fuel stated.now.parts.now
            self.new.starts.items self.new.unstated }
        ensures grows { Grows self.old.starts.items self.new.starts.items self.old.unstated
            self.new.unstated }
        ensures hold { (x : _) → Among children.entry.items x → Holds (given stated.now.setting)
            stated.now.fuel stated.now.parts.now (length stated.now.parts.now) self.new.starts.items
            self.new.unstated x }
    {
        while let Some(child) = children.pop() {
            self.keep(stated, child);
        }
    }
}
