//! Sources and sinks: what they give and take, and their faults.

ghost use Rattle.std.specs.Prelude.{None};
ghost use Rattle.bench_io.specs.Stream.{opened_once};

use bench_io::{
    Failed, MemSink, MemSource, ReadError, Sink, Source, StdSink, StdSource, SteadySink,
    SteadySource, put_chunk, read_all,
};
use std::alloc::{AllocError, Global};
use std::io;
use std::io::{ErrorKind, Read, Write};
use std::test::Fail;

/// A reader that fails once, and then is at its end.
#[derive(Drop)]
struct Broken {
    has_failed: bool,
}

impl Read for Broken {
    fn read(&mut self, _buf: &mut [u8]) -> io::Result<usize> {
        if self.has_failed {
            return Ok(0);
        }
        self.has_failed = true;
        Err(io::Error::from(ErrorKind::BrokenPipe))
    }
}

/// A writer that takes a given number of bytes, and then fails or takes nothing.
#[derive(Drop)]
struct Narrow {
    room: usize,
    fails: bool,
}

impl Write for Narrow {
    fn write(&mut self, buf: &[u8]) -> io::Result<usize> {
        if self.room == 0 && self.fails {
            return Err(io::Error::from(ErrorKind::BrokenPipe));
        }
        let count = buf.len().min(self.room);
        self.room -= count;
        Ok(count)
    }

    fn flush(&mut self) -> io::Result<()> {
        Ok(())
    }
}

/// A writer that is interrupted before each byte that it takes.
#[derive(Drop)]
struct Halting {
    interrupted: bool,
}

impl Write for Halting {
    fn write(&mut self, buf: &[u8]) -> io::Result<usize> {
        self.interrupted = !self.interrupted;
        if self.interrupted {
            return Err(io::Error::from(ErrorKind::Interrupted));
        }
        Ok(buf.len().min(1))
    }

    fn flush(&mut self) -> io::Result<()> {
        Ok(())
    }
}

/// A source that gives one byte at each call, and has no end. It counts its calls.
#[derive(Drop)]
struct Endless {
    calls: u64,
}

impl Source for Endless {
    ghost state = { λ s. opened_once None s.calls s.calls 0 0 };

    ghost kept = { λ _. tt };

    fn take(&mut self, buffer: &mut [u8]) -> Result<usize, Failed> {
        self.calls = self.calls.saturating_add(1);
        buffer[0] = 7;
        Ok(1)
    }
}

/// The number of no call.
const NEVER: u64 = 99;

/// Bytes of a source, the call that fails, the limit, and how many bytes come. Four calls read 9,000 bytes: three with
/// bytes, and the end.
const READINGS: &[(usize, u64, usize, Result<usize, ReadError>)] = &[
    (0, NEVER, 0, Ok(0)),
    (1, NEVER, 0, Err(ReadError::TooLarge)),
    (5, NEVER, 4, Err(ReadError::TooLarge)),
    (5, NEVER, 5, Ok(5)),
    (4096, NEVER, 4096, Ok(4096)),
    (9000, NEVER, 1048576, Ok(9000)),
    (9000, 0, 10000, Err(ReadError::Fault)),
    (9000, 3, 10000, Err(ReadError::Fault)),
    (9000, 4, 10000, Ok(9000)),
];

/// Whether a number of bytes are read as stated, and the source has counted a fault where it is one.
fn reads_as(
    alloc: Global,
    size: usize,
    fails: u64,
    limit: usize,
    want: Result<usize, ReadError>,
) -> Result<bool, AllocError> {
    if limit == usize::MAX {
        return Ok(false);
    }
    let mut source = MemSource::new(vec![in alloc; 9; size]?, Vec::from_slice(alloc, &[fails])?);
    let got = match read_all(alloc, &mut source, limit) {
        Ok(bytes) => Ok(bytes.len()),
        Err(error) => Err(error),
    };
    Ok(got == want && source.faults() == u64::from(want == Err(ReadError::Fault)))
}

/// Whether these bytes were read.
fn are_read(read: Result<Vec<u8>, ReadError>, bytes: &[u8]) -> bool {
    match read {
        Ok(found) => found.as_slice() == bytes,
        Err(_) => false,
    }
}

/// Whether a steady source is read whole.
fn reads_steadily(alloc: Global) -> Result<bool, AllocError> {
    let mut source = SteadySource::new(Vec::from_slice(alloc, b"one")?);
    Ok(are_read(read_all(alloc, &mut source, 3), b"one"))
}

/// Whether reading a source without an end gives up one byte past the limit.
fn gives_up_without_an_end(alloc: Global) -> bool {
    let mut source = Endless { calls: 0 };
    matches!(read_all(alloc, &mut source, 10), Err(ReadError::TooLarge)) && source.calls == 11
}

#[test]
fn a_source_is_read_up_to_its_end_or_its_limit(rt: HostRuntime) -> Result<(), Fail> {
    for &(size, fails, limit, want) in READINGS {
        assert!(rt;
            reads_as(rt.alloc(), size, fails, limit, want)?,
            "{size} bytes, limit {limit}, call {fails} fails"
        );
    }
    assert!(rt; reads_steadily(rt.alloc())? && gives_up_without_an_end(rt.alloc()));
    Ok(())
}

/// Pieces that are put into a sink with room for three bytes whose fourth call fails, whether each is taken, and what
/// the sink holds then.
const PIECES: &[(&[u8], bool, &[u8])] = &[
    (b"ab", true, b"ab"),
    (b"cd", false, b"ab"),
    (b"c", true, b"abc"),
    (b"", false, b"abc"),
    (b"", true, b"abc"),
    (b"d", false, b"abc"),
];

/// Whether a sink takes a piece or counts a fault, and what it holds then.
fn puts_as(sink: &mut MemSink, piece: &[u8], taken: bool, held: &[u8]) -> bool {
    let faults = sink.faults();
    let done = sink.put(piece).is_ok();
    done == taken && sink.bytes() == held && (sink.faults() == faults) == taken
}

/// Whether what goes through a pipe comes out of it.
fn passes_a_pipe(rt: &HostRuntime) -> io::Result<bool> {
    let (reader, writer) = io::pipe(rt)?;
    {
        let mut sink = StdSink::new(writer);
        if put_chunk(&mut sink, b"through ").is_err() || sink.put(b"a pipe").is_err() {
            return Ok(false);
        }
    }
    let read = read_all(rt.alloc(), &mut StdSource::new(reader), 100);
    Ok(are_read(read, b"through a pipe"))
}

/// Whether a reader that fails once after its first bytes gives these and fails at the next call alone, and whether
/// such a failure is the fault of a whole reading.
fn fails_after_its_front(alloc: Global) -> bool {
    let mut source = StdSource::new(b"front".as_slice().chain(Broken { has_failed: false }));
    let mut buffer = [0; 8];
    let read = read_all(
        alloc,
        &mut StdSource::new(Broken { has_failed: false }),
        100,
    );
    source.take(&mut buffer) == Ok(5)
        && source.take(&mut buffer) == Err(Failed)
        && source.take(&mut buffer) == Ok(0)
        && matches!(read, Err(ReadError::Fault))
}

/// Whether a writer with room for four bytes takes three, then fails, whether by an error or by taking nothing.
fn fails_when_full(fails: bool) -> bool {
    let mut sink = StdSink::new(Narrow { room: 4, fails });
    sink.put(b"abc").is_ok() && sink.put(b"def").is_err() && sink.put(b"").is_ok()
}

/// Whether a piece is written whole where each write is interrupted first.
fn goes_on_when_interrupted() -> bool {
    let mut sink = StdSink::new(Halting { interrupted: false });
    sink.put(b"abc").is_ok()
}

#[test]
fn sinks_and_real_streams_fail_where_they_must(rt: HostRuntime) -> Result<(), Fail> {
    let mut sink = MemSink::new(rt.alloc(), 3, Vec::from_slice(rt.alloc(), &[3])?)?;
    for &(piece, taken, held) in PIECES {
        assert!(rt; puts_as(&mut sink, piece, taken, held), "{piece:?}");
    }
    assert!(rt; passes_a_pipe(&rt)? && fails_after_its_front(rt.alloc()));
    assert!(rt;
        fails_when_full(true) && fails_when_full(false) && SteadySink::new().put(b"gone").is_ok()
    );
    assert!(rt; goes_on_when_interrupted());
    Ok(())
}
