//! Sources over bytes in memory.
ghost use Rattle.std.specs.Prelude.{◌≡◌, ◌≤◌, List, length};
ghost use Rattle.rev_io.specs.Stream.{Reads};
ghost use Rattle.rev_io.specs.Memory.{CalmlyReads, SteppedReads, told_feed, told_bytes};

use super::{Failed, Source};
use std::marker::Model;

/// A source over the bytes of a `Vec`: it gives at most `step` bytes at a call, and the calls whose
/// number stands in `fails`, counted from 0, fail. The numbers of its calls and its count of faults
/// end at the greatest u64.
#[derive(Drop)]
pub struct MemSource {
    bytes: Vec<u8>,
    given: usize,
    step: usize,
    fails: Vec<u64>,
    calls: u64,
    faults: u64,
}

impl Model for MemSource {
    ghost use Rattle.std.specs.Prelude.{◌≤◌, drop, length};
    ghost use Rattle.rev_io.specs.Stepped.{Feed};

    ghost Value = { Feed };

    ghost view = { λ s. record {
      left = drop s.given s.bytes.items;
      step = s.step;
      fails = s.fails.items;
      calls = s.calls;
      faults = s.faults;
    } };

    ghost invariant = { λ s. (s.given ≤ length s.bytes.items) × (1 ≤ s.step) };
}

impl MemSource {
    /// A source that has these bytes left, and was not called yet.
    pub fn new(bytes: Vec<u8>, step: usize, fails: Vec<u64>) -> MemSource
        requires { 1 ≤ step }
        ensures { result ≡ record {
          left = bytes.items;
          step = step;
          fails = fails.items;
          calls = 0;
          faults = 0;
        } }
    {
        MemSource {
            bytes,
            given: 0,
            step,
            fails,
            calls: 0,
            faults: 0,
        }
    }
}

impl Source for MemSource {
    ghost stream = { told_feed };

    fn read(&mut self, buf: &mut [u8]) -> Result<usize, Failed>
        ensures told { Reads (told_feed self.old) (told_feed self.new) buf.old buf.new result }
        ensures stepped { SteppedReads self.old self.new buf.old buf.new result }
    {
        let fails = self.fails.contains(&self.calls);
        self.calls = self.calls.saturating_add(1);
        if fails {
            self.faults = self.faults.saturating_add(1);
            return Err(Failed);
        }
        let left = self.bytes.len() - self.given;
        let count = self.step.min(buf.len()).min(left);
        buf[..count].copy_from_slice(&self.bytes[self.given..self.given + count]);
        self.given += count;
        Ok(count)
    }
}

/// A source over the bytes of a `Vec` that gives as many as there is room for, and never fails.
#[derive(Drop)]
pub struct CalmSource {
    bytes: Vec<u8>,
    given: usize,
}

impl Model for CalmSource {
    ghost use Rattle.std.specs.Prelude.{ℕ, List, ◌≤◌, drop, length};

    ghost Value = { List ℕ };

    ghost view = { λ s. drop s.given s.bytes.items };

    ghost invariant = { λ s. s.given ≤ length s.bytes.items };
}

impl CalmSource {
    /// A source that has these bytes left.
    pub fn new(bytes: Vec<u8>) -> CalmSource
        ensures { result ≡ bytes.items }
    {
        CalmSource { bytes, given: 0 }
    }
}

impl Source for CalmSource {
    ghost stream = { told_bytes };

    fn read(&mut self, buf: &mut [u8]) -> Result<usize, Failed>
        ensures told { Reads (told_bytes self.old) (told_bytes self.new) buf.old buf.new result }
        ensures calm { CalmlyReads self.old self.new buf.old buf.new result }
    {
        let left = self.bytes.len() - self.given;
        let count = buf.len().min(left);
        buf[..count].copy_from_slice(&self.bytes[self.given..self.given + count]);
        self.given += count;
        Ok(count)
    }
}
