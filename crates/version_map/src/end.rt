//! What a revision leaves when it has ended.

ghost use Rattle.std.specs.Prelude.{◌≡◌, IfOk};
ghost use Rattle.version_map.specs.Ascending.{IsAscending};
ghost use Rattle.version_map.specs.Endings.{of_join};

use rev_num::{Bytes, Cause, Items};
use std::alloc::{AllocError, Global};

/// A location that a revision wrote: the word that it has there, and the word that was there when
/// the revision was forked.
#[derive(Clone, Copy)]
pub struct Written {
    pub location: u32,
    pub value: u64,
    pub root: u64,
}

/// How a revision of running code trapped: the cause, the line of the statement, and the number of
/// the revision that trapped first. No number means the revision itself.
#[derive(Clone, Copy)]
pub struct CodeTrap {
    pub cause: Cause,
    pub line: u32,
    pub origin: Option<u32>,
}

impl CodeTrap {
    /// Whether a join made the trap: its merges faulted, or the joined revision had trapped.
    pub fn is_of_join(&self) -> bool
        ensures { result ≡ of_join self.now }
    {
        self.origin.is_some() || matches!(self.cause, Cause::Merge { .. })
    }
}

/// How a revision ended.
#[derive(Clone, Copy)]
pub enum Finish {
    Done,
    Trapped(CodeTrap),
}

/// What a revision leaves to the one that joins it: what it wrote, each location once and in
/// ascending order, its text, the fuel that it did not use, and how it ended.
#[derive(Drop)]
pub struct EndValue {
    pub written: Items<Written>,
    pub text: Bytes,
    pub fuel: u64,
    pub finish: Finish,
    pub ghost ascending: { IsAscending written },
}

impl EndValue {
    /// The same once more, with a text of its own. Want of memory is the one error.
    pub fn copied(&self, alloc: Global) -> Result<EndValue, AllocError>
        ensures { IfOk result (λ v. v ≡ self.now) }
    {
        let written = Vec::from_slice(alloc, self.written.as_slice())?;
        let text = Vec::from_slice(alloc, self.text.as_slice())?;
        Ok(EndValue {
            written: Items::from_vec(written),
            text: Items::from_vec(text),
            fuel: self.fuel,
            finish: self.finish,
        })
    }
}
