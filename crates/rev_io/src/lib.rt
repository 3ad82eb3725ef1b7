//! Sources and sinks of bytes.
//!
//! A source gives bytes and a sink takes them, some at each call. Either may tell its bytes: those
//! that a source has left, those that a sink holds. Each keeps a count of its faults, which a call
//! raises, up to the greatest u64, exactly where it answers that it failed.
#![tactic(auto)]

ghost use Rattle.rev_io.specs.Stream.{Stream, Reads, Writes};

mod adapters;
mod memory_sink;
mod memory_source;
mod transfer;

pub use adapters::{StdSink, StdSource};
pub use memory_sink::{CalmSink, MemSink};
pub use memory_source::{CalmSource, MemSource};
pub use transfer::{read_text, write_all};

/// A call of a source or a sink failed: its count of faults rose, and nothing moved.
#[derive(Clone, Copy, PartialEq, Eq, Debug, Drop)]
pub struct Failed;

/// Why a sink took nothing.
#[derive(Clone, Copy, PartialEq, Eq, Debug, Drop)]
pub enum SinkFault {
    /// The sink failed, and its count of faults rose.
    Failed,
    /// Memory ran out; the count did not rise.
    OutOfMemory,
}

/// Why no text was read.
#[derive(Clone, Copy, PartialEq, Eq, Debug, Drop)]
pub enum ReadText {
    /// A call of the source failed.
    Fault,
    /// The source gave more bytes than the limit.
    TooLong,
    /// Memory ran out.
    OutOfMemory,
}

/// What gives bytes.
pub trait Source {
    // The bytes that are left, if they are told, and the count of faults.
    ghost stream: { Self → Stream };

    /// Moves bytes to the front of `buf` and answers how many. Where `buf` has room and the source
    /// tells its bytes, 0 is the end of the input.
    fn read(&mut self, buf: &mut [u8]) -> Result<usize, Failed>
        ensures { Reads (stream self.old) (stream self.new) buf.old buf.new result };
}

/// What takes bytes.
pub trait Sink {
    // The bytes that it holds, if they are told, and the count of faults.
    ghost stream: { Self → Stream };

    /// Takes the first bytes of `piece` and answers how many: at least one, unless there is none.
    fn write(&mut self, piece: &[u8]) -> Result<usize, SinkFault>
        ensures { Writes (stream self.old) (stream self.new) piece.now result };
}
