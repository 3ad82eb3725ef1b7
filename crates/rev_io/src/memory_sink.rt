//! Sinks over bytes in memory.
ghost use Rattle.std.specs.Prelude.{◌≡◌, ◌≤◌, [], List};
ghost use Rattle.rev_io.specs.Stream.{Writes};
ghost use Rattle.rev_io.specs.Memory.{CalmlyWrites, SteppedWrites, told_store, told_bytes};

use super::{Sink, SinkFault};
use std::alloc::Global;
use std::marker::Model;

/// A sink that keeps its bytes in a `Vec`: it takes at most `step` bytes at a call, and the calls
/// whose number stands in `fails`, counted from 0, fail. The numbers of its calls and its count of
/// faults end at the greatest u64.
#[derive(Drop)]
pub struct MemSink {
    bytes: Vec<u8>,
    step: usize,
    fails: Vec<u64>,
    calls: u64,
    faults: u64,
}

impl Model for MemSink {
    ghost use Rattle.std.specs.Prelude.{◌≤◌};
    ghost use Rattle.rev_io.specs.Stepped.{Store};

    ghost Value = { Store };

    ghost view = { λ s. record {
      held = s.bytes.items;
      step = s.step;
      fails = s.fails.items;
      calls = s.calls;
      faults = s.faults;
    } };

    ghost invariant = { λ s. 1 ≤ s.step };
}

impl MemSink {
    /// A sink that holds nothing, and was not called yet.
    pub fn new(alloc: Global, step: usize, fails: Vec<u64>) -> MemSink
        requires { 1 ≤ step }
        ensures { result ≡ record {
          held = [];
          step = step;
          fails = fails.items;
          calls = 0;
          faults = 0;
        } }
    {
        MemSink {
            bytes: Vec::new(alloc),
            step,
            fails,
            calls: 0,
            faults: 0,
        }
    }

    /// The bytes that it holds.
    pub fn bytes(&self) -> &[u8]
        ensures { result.now ≡ self.now.held }
    {
        self.bytes.as_slice()
    }
}

impl Sink for MemSink {
    ghost stream = { told_store };

    fn write(&mut self, piece: &[u8]) -> Result<usize, SinkFault>
        ensures told { Writes (told_store self.old) (told_store self.new) piece.now result }
        ensures stepped { SteppedWrites self.old self.new piece.now result }
    {
        let fails = self.fails.contains(&self.calls);
        self.calls = self.calls.saturating_add(1);
        if fails {
            self.faults = self.faults.saturating_add(1);
            return Err(SinkFault::Failed);
        }
        let count = self.step.min(piece.len());
        match self.bytes.extend_from_slice(&piece[..count]) {
            Ok(()) => Ok(count),
            Err(_) => Err(SinkFault::OutOfMemory),
        }
    }
}

/// A sink that keeps its bytes in a `Vec`, takes all of a piece at once, and never fails. Memory
/// may run out.
#[derive(Drop)]
pub struct CalmSink {
    bytes: Vec<u8>,
}

impl Model for CalmSink {
    ghost use Rattle.std.specs.Prelude.{ℕ, List};

    ghost Value = { List ℕ };

    ghost view = { λ s. s.bytes.items };
}

impl CalmSink {
    /// A sink that holds nothing.
    pub fn new(alloc: Global) -> CalmSink
        ensures { result ≡ [] }
    {
        CalmSink {
            bytes: Vec::new(alloc),
        }
    }

    /// The bytes that it holds.
    pub fn bytes(&self) -> &[u8]
        ensures { result.now ≡ self.now }
    {
        self.bytes.as_slice()
    }
}

impl Sink for CalmSink {
    ghost stream = { told_bytes };

    fn write(&mut self, piece: &[u8]) -> Result<usize, SinkFault>
        ensures told { Writes (told_bytes self.old) (told_bytes self.new) piece.now result }
        ensures calm { CalmlyWrites self.old self.new piece.now result }
    {
        match self.bytes.extend_from_slice(piece) {
            Ok(()) => Ok(piece.len()),
            Err(_) => Err(SinkFault::OutOfMemory),
        }
    }
}
