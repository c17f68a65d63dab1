//! The adapters over readers and writers in memory, and the failing calls of the source and the sink in memory.
use super::{Failed, MemorySink, MemorySource, Sink, Source, StdSink, StdSource};
use std::io;
use std::test::Fail;

/// A writer that takes one byte at a call, and nothing once it is full.
#[derive(Drop)]
struct Trickle {
    taken: [u8; 2],
    count: usize,
}

impl io::Write for Trickle {
    fn write(&mut self, buf: &[u8]) -> io::Result<usize> {
        if self.count < 2 && !buf.is_empty() {
            self.taken[self.count] = buf[0];
            self.count += 1;
            return Ok(1);
        }
        Ok(0)
    }

    fn flush(&mut self) -> io::Result<()> {
        Ok(())
    }
}

/// A reader and a writer of one byte at a call, whose second call fails and no other.
#[derive(Drop)]
struct FailsOnce {
    calls: u8,
}

impl FailsOnce {
    fn is_second_call(&mut self) -> bool {
        self.calls = self.calls.saturating_add(1);
        self.calls == 2
    }
}

impl io::Read for FailsOnce {
    fn read(&mut self, buf: &mut [u8]) -> io::Result<usize> {
        if buf.is_empty() {
            return Ok(0);
        }
        if self.is_second_call() {
            return Err(io::Error::other("the second call"));
        }
        Ok(1)
    }
}

impl io::Write for FailsOnce {
    fn write(&mut self, buf: &[u8]) -> io::Result<usize> {
        if buf.is_empty() {
            return Ok(0);
        }
        if self.is_second_call() {
            return Err(io::Error::other("the second call"));
        }
        Ok(1)
    }

    fn flush(&mut self) -> io::Result<()> {
        Ok(())
    }
}

// A failure is told at once: no call is made again in its place.
#[test]
fn std_adapters_tell_one_failure(rt: HostRuntime) -> Result<(), Fail> {
    let mut source = StdSource::new(FailsOnce { calls: 0 });
    for want in [Ok(1), Err(Failed), Ok(1)] {
        assert_eq!(rt; source.read(&mut [0; 2]), want);
    }

    let mut sink = StdSink::new(FailsOnce { calls: 0 });
    for want in [Err(Failed), Ok(())] {
        assert_eq!(rt; sink.write_all(b"xyz"), want);
    }
    Ok(())
}

#[test]
fn std_adapters_read_and_write(rt: HostRuntime) -> Result<(), Fail> {
    let text: &[u8] = b"abc";
    let mut source = StdSource::new(text);
    let mut into = [0; 2];
    assert_eq!(rt; source.read(&mut into), Ok(2));
    assert_eq!(rt; into, *b"ab");
    assert_eq!(rt; source.read(&mut into), Ok(1));
    assert_eq!(rt; source.read(&mut into), Ok(0));

    let mut sink = StdSink::new(Trickle {
        taken: [0; 2],
        count: 0,
    });
    assert!(rt; sink.write_all(b"xy").is_ok());
    assert!(rt; sink.write_all(b"").is_ok());
    assert!(rt; sink.write_all(b"z").is_err());
    Ok(())
}

#[test]
fn memory_calls_fail_as_listed(rt: HostRuntime) -> Result<(), Fail> {
    let alloc = rt.alloc();
    let mut source = MemorySource::new(alloc, b"abcde", 2, &[2])?;
    for want in [Ok(2), Err(Failed), Ok(2), Ok(1), Ok(0)] {
        let mut into = [0; 8];
        assert_eq!(rt; source.read(&mut into), want);
    }

    let mut sink = MemorySink::new(alloc, 5, &[2, 3])?;
    let rows: [(&[u8], bool, &[u8]); 5] = [
        (b"ab", true, b"ab"),
        (b"cd", false, b"ab"),
        (b"", true, b"ab"),
        (b"cdef", false, b"abcde"),
        (b"g", false, b"abcde"),
    ];
    for (piece, is_ok, taken) in rows {
        assert_eq!(rt; sink.write_all(piece).is_ok(), is_ok);
        assert_eq!(rt; sink.taken(), taken);
    }
    Ok(())
}
