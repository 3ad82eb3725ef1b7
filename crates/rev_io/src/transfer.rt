//! Reading a source to its end, and writing all bytes to a sink.
ghost use Rattle.std.specs.Prelude.{◌<◌, ◌^◌};
ghost use Rattle.rev_io.specs.Stream.{ReadsText, WritesAll};

use super::{ReadText, Sink, SinkFault, Source};
use std::alloc::Global;

/// Reads all bytes up to the end of a source that tells its bytes, if there are at most `limit`. It
/// takes at most one byte more than that from the source.
pub fn read_text<S: Source>(
    alloc: Global,
    source: &mut S,
    limit: usize,
) -> Result<Vec<u8>, ReadText>
    requires { limit < 2 ^ 32 }
    ensures { ReadsText limit (S.stream source.old) (S.stream source.new) result }
{
    let mut text = Vec::new(alloc);
    let mut piece = [0u8; 4096];
    while text.len() <= limit {
        let room = (limit + 1 - text.len()).min(4096);
        let count = match source.read(&mut piece[..room]) {
            Ok(count) => count,
            Err(_) => return Err(ReadText::Fault),
        };
        if count == 0 {
            return Ok(text);
        }
        if text.extend_from_slice(&piece[..count]).is_err() {
            return Err(ReadText::OutOfMemory);
        }
    }
    Err(ReadText::TooLong)
}

/// Writes all of the bytes. Where it is refused, the sink took a first part of them.
pub fn write_all<K: Sink>(sink: &mut K, bytes: &[u8]) -> Result<(), SinkFault>
    ensures { WritesAll (K.stream sink.old) (K.stream sink.new) bytes.now result }
{
    let mut done = 0;
    while done < bytes.len() {
        done += sink.write(&bytes[done..])?;
    }
    Ok(())
}
