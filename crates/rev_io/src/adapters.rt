//! Readers and writers of the standard library as sources and sinks.
ghost use Rattle.std.specs.Prelude.{◌≡◌, IfErr};
ghost use Rattle.rev_io.specs.Stream.{Writes};
ghost use Rattle.rev_io.specs.Memory.{untold};

use super::{Failed, Sink, SinkFault, Source};
use std::io::{Read, Write};

/// A reader as a source. Each error of the reader is a fault, and the count of faults ends at the
/// greatest u64. Nothing is told of the bytes.
#[derive(Drop)]
pub struct StdSource<R: Read + Drop> {
    reader: R,
    faults: u64,
}

impl<R: Read + Drop> StdSource<R> {
    /// A source that did not fail yet.
    pub fn new(reader: R) -> StdSource<R>
        ensures { ⟦<StdSource<R> as Source>⟧.stream result ≡ untold 0 }
    {
        StdSource { reader, faults: 0 }
    }
}

impl<R: Read + Drop> Source for StdSource<R> {
    ghost stream = { λ s. untold s.faults };

    fn read(&mut self, buf: &mut [u8]) -> Result<usize, Failed> {
        match self.reader.read(buf) {
            Ok(count) => Ok(count),
            Err(_) => {
                self.faults = self.faults.saturating_add(1);
                Err(Failed)
            }
        }
    }
}

/// A writer as a sink. Each error of the writer is a fault, and so is a call that takes nothing of
/// a piece that is not empty; the count of faults ends at the greatest u64. Nothing is told of the
/// bytes.
#[derive(Drop)]
pub struct StdSink<W: Write + Drop> {
    writer: W,
    faults: u64,
}

impl<W: Write + Drop> StdSink<W> {
    /// A sink that did not fail yet.
    pub fn new(writer: W) -> StdSink<W>
        ensures { ⟦<StdSink<W> as Sink>⟧.stream result ≡ untold 0 }
    {
        StdSink { writer, faults: 0 }
    }
}

impl<W: Write + Drop> Sink for StdSink<W> {
    ghost stream = { λ s. untold s.faults };

    fn write(&mut self, piece: &[u8]) -> Result<usize, SinkFault>
        ensures untold { Writes (untold self.old.faults) (untold self.new.faults) piece.now result }
        ensures failed { IfErr result (λ fault. fault ≡ SinkFault.Failed) }
    {
        match self.writer.write(piece) {
            Ok(count) if count > 0 || piece.is_empty() => Ok(count),
            _ => {
                self.faults = self.faults.saturating_add(1);
                Err(SinkFault::Failed)
            }
        }
    }
}
