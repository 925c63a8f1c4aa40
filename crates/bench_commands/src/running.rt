//! The commands over one input, which read no file.

ghost use Rattle.std.specs.Prelude.{Some};
ghost use Rattle.report_defs.specs.Commands.{command_of, KeepsLimit};
ghost use Rattle.reports.specs.Run.{EndsBy};
ghost use Rattle.bench_commands.specs.Bench.{bench_program};
ghost use Rattle.bench_commands.specs.Laws.{LawsOfRuns};

use crate::commands::prepare;
use crate::input::take_input;
use bench_io::{Sink, Source};
use command_words::{Words, read_command};
use report_defs::{Command, Fault, Status};
use reports::{CommandError, finish};
use std::alloc::Global;

/// Runs the command that the words say. It reads all of `input` before it writes, writes the report to `out`, or a
/// fault line or the usage line to `err`, and takes all its memory before the first byte is written. The lines of a
/// trace are written while the program runs, each once its step is made.
///
/// The contract says of each status its cause, and what the input and the outputs are then; that where the bytes that
/// the command reads are known and nothing fails, there is one report on them, which was written whole, and the answer
/// is its status, or memory ran out; that there is at most one report on each command and input; that the words which
/// the machine holds are the linked memory of the interpreter's source, and that for each i up to the last step of a
/// program that is run the machine after the first i turns matches its state after i steps; and that what `gdis` and
/// `dis` list is assembled to what was listed.
#[tactic(auto, using(crate::proofs::Laws::laws))]
pub fn bench<S: Source, O: Sink, E: Sink>(
    alloc: Global,
    words: &Words,
    input: &mut S,
    out: &mut O,
    err: &mut E,
) -> Status
    ensures laws { LawsOfRuns }
    ensures ends { EndsBy bench_program (record {
      parsed = command_of words.now;
      before = S.state input.old;
      after = S.state input.new;
      outputs = record {
        out = O.state out.old;
        out' = O.state out.new;
        err = E.state err.old;
        err' = E.state err.new;
      };
    }) result }
{
    match read_command(words) {
        Some(command) => run_command(alloc, command, input, out, err),
        None => finish(&Err(CommandError::Fault(Fault::Usage)), out, err),
    }
}

/// Runs a command. The run ends as [`bench`] does under words that say it.
pub fn run_command<S: Source, O: Sink, E: Sink>(
    alloc: Global,
    command: Command,
    input: &mut S,
    out: &mut O,
    err: &mut E,
) -> Status
    requires { KeepsLimit command }
    ensures { EndsBy bench_program (record {
      parsed = Some command;
      before = S.state input.old;
      after = S.state input.new;
      outputs = record {
        out = O.state out.old;
        out' = O.state out.new;
        err = E.state err.old;
        err' = E.state err.new;
      };
    }) result }
{
    let bytes = match take_input(alloc, command, input) {
        Ok(bytes) => bytes,
        Err(error) => return finish(&Err(error.into()), out, err),
    };
    match prepare(alloc, command, bytes) {
        Ok(prepared) => prepared.finish(out, err),
        Err(command_error) => finish(&Err(command_error), out, err),
    }
}
