//! The program over streams of std.

ghost use Rattle.std.specs.Io.Buffered.{writer_contents};
ghost use Rattle.bench_shelf.specs.Causes.{CountsGrew};
ghost use Rattle.debug_report_defs.specs.Words.{debug_command};
ghost use Rattle.reports.specs.Run.{EndsBy};
ghost use Rattle.reports.specs.Streams.{EndsOver, EndsThrough};
ghost use Rattle.debug_commands.specs.Debug.{TakesOfShelf, debug_program};
ghost use Rattle.debug_commands.specs.Laws.{LawsOfDebugRuns};

use crate::running::debug;
use bench_io::{StdSink, StdSource};
use bench_shelf::Shelf;
use command_words::Words;
use report_defs::Status;
use std::alloc::Global;
use std::io::{BufWriter, Read, Write};

/// Runs the command that the words say, as [`debug`] does, over a reader and two writers. They come back in their
/// adapters, which show what the reader has left and what the writers hold, if the streams showed that before.
///
/// The laws say in `streams` what follows: if the streams show their bytes and the status is 0, 1 or 7, the
/// writers hold what they held and then the one report on the bytes that the reader had left, and nothing else.
#[tactic(auto, using(reports::proofs::Streams::run_ends))]
pub fn debug_over<F: Shelf, R: Read + Drop, W: Write + Drop, E: Write + Drop>(
    alloc: Global,
    words: &Words,
    input: R,
    shelf: &mut F,
    output: W,
    errors: E,
) -> (Status, StdSource<R>, StdSink<W>, StdSink<E>)
    ensures laws { LawsOfDebugRuns }
    ensures ends { EndsOver (λ before after outputs end. EndsBy debug_program (record {
      parsed = debug_command words.now;
      before = record { input = before; shelf = F.shelf shelf.old };
      after = record { input = after; shelf = F.shelf shelf.new };
      outputs = outputs;
    }) end) (record {
      left = R.remaining input;
      out = W.contents output;
      err = E.contents errors;
    }) result.1 result.2 result.3 result.0 }
    ensures shelf { TakesOfShelf (debug_command words.now) (F.shelf shelf.old) (F.shelf shelf.new) }
    ensures later { CountsGrew (F.shelf shelf.old) (F.shelf shelf.new) }
{
    let mut source = StdSource::new(input);
    let mut out = StdSink::new(output);
    let mut err = StdSink::new(errors);
    let status = debug(alloc, words, &mut source, shelf, &mut out, &mut err);
    (status, source, out, err)
}

/// The same with a buffer before the report's writer, which is written out before this returns. If it cannot be, the
/// status is a write fault.
pub fn debug_through<F: Shelf, R: Read + Drop, W: Write + Drop, E: Write + Drop>(
    alloc: Global,
    words: &Words,
    input: R,
    shelf: &mut F,
    output: BufWriter<W>,
    errors: E,
) -> (Status, StdSource<R>, StdSink<W>, StdSink<E>)
    ensures laws { LawsOfDebugRuns }
    ensures ends { EndsThrough (λ before after outputs end. EndsBy debug_program (record {
      parsed = debug_command words.now;
      before = record { input = before; shelf = F.shelf shelf.old };
      after = record { input = after; shelf = F.shelf shelf.new };
      outputs = outputs;
    }) end) (record {
      left = R.remaining input;
      out = writer_contents W.contents output;
      err = E.contents errors;
    }) result.1 result.2 result.3 result.0 }
    ensures shelf { TakesOfShelf (debug_command words.now) (F.shelf shelf.old) (F.shelf shelf.new) }
    ensures later { CountsGrew (F.shelf shelf.old) (F.shelf shelf.new) }
{
    let (status, source, out, err) = debug_over(alloc, words, input, shelf, output, errors);
    let (is_written, out) = out.unbuffered();
    let status = if is_written {
        status
    } else {
        Status::WriteFault
    };
    (status, source, out, err)
}
