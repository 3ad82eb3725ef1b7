//! Steps, failing calls, and readers and writers of the standard library.

use rev_io::*;
use std::io;
use std::io::{Read, Write};

const TEXT: &[u8] = b"main { print 7; }";

/// What reading gives from a source over `TEXT`.
fn read_in_steps(
    rt: &HostRuntime,
    step: usize,
    fails: &[u64],
    limit: usize,
) -> Result<Vec<u8>, ReadText> {
    let text = Vec::from_slice(rt.alloc(), TEXT).map_err(|_| ReadText::OutOfMemory)?;
    let fails = Vec::from_slice(rt.alloc(), fails).map_err(|_| ReadText::OutOfMemory)?;
    let mut source = MemSource::new(text, step.max(1), fails);
    read_text(rt.alloc(), &mut source, limit.min(1000))
}

#[test]
fn sources_in_memory(rt: HostRuntime) {
    let wants: [(usize, &[u64], usize, Option<ReadText>); 13] = [
        (4, &[0], 17, Some(ReadText::Fault)),
        (4, &[1], 17, Some(ReadText::Fault)),
        (4, &[4], 17, Some(ReadText::Fault)),
        (4, &[5], 17, Some(ReadText::Fault)),
        (4, &[6], 17, None),
        (4, &[9, 3], 17, Some(ReadText::Fault)),
        (4, &[], 17, None),
        (1, &[17], 17, Some(ReadText::Fault)),
        (1, &[18], 17, None),
        (50, &[], 17, None),
        (4, &[], 16, Some(ReadText::TooLong)),
        (4, &[5], 16, Some(ReadText::TooLong)),
        (4, &[4], 16, Some(ReadText::Fault)),
    ];
    for (step, fails, limit, want) in wants {
        match read_in_steps(&rt, step, fails, limit) {
            Ok(text) => {
                assert!(rt; want.is_none(), "step {step}, limit {limit}");
                assert!(rt; text.as_slice() == TEXT);
            }
            Err(fault) => assert!(rt; want == Some(fault), "step {step}, limit {limit}"),
        }
    }
    let text = Vec::from_slice(rt.alloc(), TEXT).expect(&rt, "memory");
    let mut source = CalmSource::new(text);
    let read = read_text(rt.alloc(), &mut source, 17).expect(&rt, "the text");
    assert!(rt; read.as_slice() == TEXT);
}

#[test]
fn sinks_in_memory(rt: HostRuntime) {
    let wants: [(usize, &[u64], &[u8], bool); 7] = [
        (3, &[1], b"123", false),
        (1, &[0], b"", false),
        (1, &[1], b"1", false),
        (1, &[5], b"12345", false),
        (1, &[6], b"12345\n", true),
        (3, &[2], b"12345\n", true),
        (9, &[], b"12345\n", true),
    ];
    for (step, fails, held, whole) in wants {
        let fails = Vec::from_slice(rt.alloc(), fails).expect(&rt, "memory");
        let mut sink = MemSink::new(rt.alloc(), step.max(1), fails);
        let want = if whole {
            Ok(())
        } else {
            Err(SinkFault::Failed)
        };
        assert!(rt; write_all(&mut sink, b"12345\n") == want, "step {step}");
        assert!(rt; sink.bytes() == held, "step {step}");
    }
    let mut sink = CalmSink::new(rt.alloc());
    assert!(rt; write_all(&mut sink, b"12345\n") == Ok(()));
    assert!(rt; sink.bytes() == b"12345\n".as_slice());
}

/// A reader that fails at each call but the first.
#[derive(Drop)]
struct Ending {
    calls: usize,
}

impl Read for Ending {
    fn read(&mut self, buf: &mut [u8]) -> io::Result<usize> {
        let first = self.calls == 0;
        self.calls = self.calls.saturating_add(1);
        if first && buf.len() > 1 {
            buf[0] = b'7';
            return Ok(1);
        }
        Err(io::Error::from(io::ErrorKind::Other))
    }
}

/// A writer that takes two bytes and then nothing more, or then fails.
#[derive(Drop)]
struct Narrow {
    taken: usize,
    fails: bool,
}

impl Write for Narrow {
    fn write(&mut self, buf: &[u8]) -> io::Result<usize> {
        if self.taken < 2 && !buf.is_empty() {
            self.taken += 1;
            return Ok(1);
        }
        if self.fails {
            return Err(io::Error::from(io::ErrorKind::Other));
        }
        Ok(0)
    }

    fn flush(&mut self) -> io::Result<()> {
        Ok(())
    }
}

#[test]
fn standard_readers_and_writers(rt: HostRuntime) {
    let mut source = StdSource::new(io::Cursor::new(TEXT));
    let read = read_text(rt.alloc(), &mut source, 17).expect(&rt, "the text");
    assert!(rt; read.as_slice() == TEXT);
    let mut source = StdSource::new(Ending { calls: 0 });
    assert!(rt; source.read(&mut [0; 4]) == Ok(1));
    assert!(rt; source.read(&mut [0; 4]) == Err(Failed));
    match read_text(rt.alloc(), &mut source, 17) {
        Ok(_) => assert!(rt; false),
        Err(fault) => assert!(rt; fault == ReadText::Fault),
    }

    for fails in [false, true] {
        let mut sink = StdSink::new(Narrow { taken: 0, fails });
        assert!(rt; write_all(&mut sink, b"12") == Ok(()));
        assert!(rt; sink.write(b"") == if fails { Err(SinkFault::Failed) } else { Ok(0) });
        assert!(rt; write_all(&mut sink, b"345") == Err(SinkFault::Failed));
    }
}
