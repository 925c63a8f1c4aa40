//! A source and a sink over the readers and writers of std.
//!
//! A stream that hides its bytes at first shows none for good (`Snapshot`), since the contracts of std let a hidden
//! stream become a shown one with any bytes.

ghost use Rattle.std.specs.Prelude.{◌≡◌, ◌<◌, ◌≤◌, length, take, IfOk, OnOk, OnErr};
ghost use Rattle.base_defs.specs.Counts.{saturating_sum, Rose};
ghost use Rattle.bench_io.specs.Stream.{AppendsPrefix, Gave, Grew, GrewByPrefix, IsAtEnd, opened_once, empty_calls};
ghost use Rattle.bench_io.specs.Shown.{ShowsStream, Unbuffered};
ghost use Rattle.std.specs.Io.KnownBytes.{Appends};

use crate::{Failed, Sink, Source};
use std::fmt::{self, Debug, Formatter};
use std::io::{BufWriter, ErrorKind, Read, Write};
use std::marker::Model;
use std::snapshot::Snapshot;

/// A source over any reader of std. A read that fails is a fault. It shows what the reader has left, if the reader
/// showed that when the source was made.
#[derive(Drop)]
pub struct StdSource<R: Read + Drop> {
    reader: R,
    first: Snapshot<R>,
    calls: u64,
    taken: u64,
    empty: u64,
    faults: u64,
}

impl<R: Read + Drop> Model for StdSource<R> {
    ghost use Rattle.bench_io.specs.Stream.{SourceState, opened_once};
    ghost use Rattle.bench_io.specs.Shown.{GoesOn, shown_since};

    ghost Value = { SourceState };

    ghost view = { λ s.
        opened_once (shown_since (R.remaining s.first.value) (R.remaining s.reader)) s.calls s.taken s.empty s.faults };

    ghost invariant = { λ s. GoesOn (R.remaining s.first.value) (R.remaining s.reader) };
}

impl<R: Read + Drop> StdSource<R> {
    /// A source over `reader`, of which nothing has been taken.
    pub fn new(reader: R) -> Self
        ensures { result ≡ opened_once (R.remaining reader) 0 0 0 0 }
    {
        let first = Snapshot::of(&reader);
        StdSource {
            reader,
            first,
            calls: 0,
            taken: 0,
            empty: 0,
            faults: 0,
        }
    }

    /// The reader. What the source shows is what the reader has left.
    #[tactic(auto, using(crate::proofs::Shown::shown_now))]
    pub fn into_inner(self) -> R
        ensures { ShowsStream self.left (R.remaining result) }
    {
        self.reader
    }
}

impl<R: Read + Drop> Debug for StdSource<R> {
    fn fmt<F: fmt::Write>(&self, f: &mut Formatter<F>) -> fmt::Result {
        f.debug_struct("StdSource")
            .field("calls", &self.calls)
            .field("taken", &self.taken)
            .field("empty", &self.empty)
            .field("faults", &self.faults)
            .finish_non_exhaustive()
    }
}

impl<R: Read + Drop> Source for StdSource<R> {
    ghost state = { λ s. opened_once s.left s.calls s.taken s.empty s.faults };

    ghost kept = { λ _. tt };

    /// A call that fails raises the count of faults by one, and no other call does.
    #[tactic(auto, using(crate::proofs::Shown::shown_gave, crate::proofs::Shown::shown_end, crate::proofs::Shown::shown_kept))]
    fn take(&mut self, buffer: &mut [u8]) -> Result<usize, Failed>
        requires { 0 < length buffer.old }
        ensures cause { OnErr result (Rose self.old.faults self.new.faults) }
        ensures within { IfOk result (λ count. count ≤ length buffer.old) }
        ensures gave { IfOk result (λ count. Gave self.old.left self.new.left (take count buffer.new)) }
        ensures end { IfOk result (λ count. count ≡ 0 → IsAtEnd self.new.left) }
        ensures ok { IfOk result (λ count. self.new ≡ record self.old {
          left = self.new.left;
          calls = saturating_sum self.old.calls 1;
          taken = saturating_sum self.old.taken count;
          given = saturating_sum self.old.given count;
          largest = saturating_sum self.old.largest count;
          empty = saturating_sum self.old.empty (empty_calls count);
        }) }
        ensures error { OnErr result (self.new ≡ record self.old {
          calls = saturating_sum self.old.calls 1;
          empty = saturating_sum self.old.empty 1;
          faults = saturating_sum self.old.faults 1;
        }) }
    {
        self.calls = self.calls.saturating_add(1);
        match self.reader.read(buffer) {
            Ok(count) => {
                self.taken = self.taken.saturating_add(count as u64);
                if count == 0 {
                    self.empty = self.empty.saturating_add(1);
                }
                Ok(count)
            }
            Err(_) => {
                self.empty = self.empty.saturating_add(1);
                self.faults = self.faults.saturating_add(1);
                Err(Failed)
            }
        }
    }
}

/// A sink over any writer of std. Each error of the writer but an interruption is a fault, and so is a write that
/// takes nothing of a piece that is not empty. It shows what the writer holds, if the writer showed that when the sink
/// was made.
#[derive(Drop)]
pub struct StdSink<W: Write + Drop> {
    writer: W,
    first: Snapshot<W>,
    puts: u64,
    faults: u64,
}

impl<W: Write + Drop> Model for StdSink<W> {
    ghost use Rattle.bench_io.specs.Stream.{SinkState};
    ghost use Rattle.bench_io.specs.Shown.{GoesOn, shown_since};

    ghost Value = { SinkState };

    ghost view = { λ s. record {
      held = shown_since (W.contents s.first.value) (W.contents s.writer);
      puts = s.puts;
      faults = s.faults;
    } };

    ghost invariant = { λ s. GoesOn (W.contents s.first.value) (W.contents s.writer) };
}

impl<W: Write + Drop> StdSink<W> {
    /// A sink over `writer`.
    pub fn new(writer: W) -> Self
        ensures { result ≡ record { held = W.contents writer; puts = 0; faults = 0 } }
    {
        let first = Snapshot::of(&writer);
        StdSink {
            writer,
            first,
            puts: 0,
            faults: 0,
        }
    }

    /// The writer. What the sink shows is what the writer holds.
    #[tactic(auto, using(crate::proofs::Shown::shown_now))]
    pub fn into_inner(self) -> W
        ensures { ShowsStream self.held (W.contents result) }
    {
        self.writer
    }
}

impl<W: Write + Drop> StdSink<BufWriter<W>> {
    /// Writes the buffer out and takes it apart: whether all of it was written, and the sink over the writer alone. A
    /// rest that was not written is a fault: the count of faults rises by one.
    ///
    /// The buffer is flushed here, since the drop of a `BufWriter` flushes without a clause. After a flush that failed
    /// nothing more is tried.
    pub fn unbuffered(self) -> (bool, StdSink<W>)
        ensures { Unbuffered self result.1 result.0 }
    {
        let StdSink {
            writer: mut buffered,
            first: _,
            puts,
            faults,
        } = self;
        let is_written = buffered.flush().is_ok();
        let (writer, _) = buffered.into_parts();
        let first = Snapshot::of(&writer);
        let faults = if is_written {
            faults
        } else {
            faults.saturating_add(1)
        };
        let sink = StdSink {
            writer,
            first,
            puts,
            faults,
        };
        (is_written, sink)
    }
}

impl<W: Write + Drop> Debug for StdSink<W> {
    fn fmt<F: fmt::Write>(&self, f: &mut Formatter<F>) -> fmt::Result {
        f.debug_struct("StdSink")
            .field("puts", &self.puts)
            .field("faults", &self.faults)
            .finish_non_exhaustive()
    }
}

impl<W: Write + Drop> Sink for StdSink<W> {
    ghost state = { λ s. s };

    /// A call that fails raises the count of faults by one, and no other call does.
    #[tactic(auto, using(crate::proofs::Shown::shown_grew, crate::proofs::Shown::shown_front))]
    fn put(&mut self, bytes: &[u8]) -> Result<(), Failed>
        ensures cause { OnErr result (Rose self.old.faults self.new.faults) }
        ensures put { OnOk result (Grew self.old.held self.new.held bytes.now) }
        ensures failed { OnErr result (GrewByPrefix self.old.held self.new.held bytes.now) }
        ensures ok { OnOk result (self.new ≡ record self.old { held = self.new.held; puts = saturating_sum self.old.puts 1 }) }
        ensures error { OnErr result (self.new ≡ record self.old {
          held = self.new.held;
          puts = saturating_sum self.old.puts 1;
          faults = saturating_sum self.old.faults 1;
        }) }
    {
        self.puts = self.puts.saturating_add(1);
        match write_whole(&mut self.writer, bytes) {
            Ok(()) => Ok(()),
            Err(_) => {
                self.faults = self.faults.saturating_add(1);
                Err(Failed)
            }
        }
    }
}

/// Writes all of some bytes to a writer. A write that was interrupted is made again. It is a loop over `write`, since
/// the contract of `write_all` says nothing of what was written before an error.
fn write_whole<W: Write>(writer: &mut W, bytes: &[u8]) -> Result<(), Failed>
    ensures bytes { OnOk result (Appends (W.contents writer.old) (W.contents writer.new) bytes.now) }
    ensures front { OnErr result (AppendsPrefix (W.contents writer.old) (W.contents writer.new) bytes.now) }
{
    let mut rest = bytes;
    for _ in 0..u64::MAX {
        if rest.is_empty() {
            return Ok(());
        }
        match writer.write(rest) {
            Ok(0) => return Err(Failed),
            Ok(count) => rest = &rest[count..],
            Err(error) => {
                if error.kind() != ErrorKind::Interrupted {
                    return Err(Failed);
                }
            }
        }
    }
    Err(Failed)
}
