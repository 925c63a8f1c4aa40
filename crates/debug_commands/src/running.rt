//! The program, over any input, shelf and outputs.

ghost use Rattle.std.specs.Prelude.{Some};
ghost use Rattle.debug_report_defs.specs.Words.{debug_command, KeepsLimit};
ghost use Rattle.bench_shelf.specs.Causes.{CountsGrew};
ghost use Rattle.reports.specs.Run.{EndsBy};
ghost use Rattle.debug_commands.specs.Debug.{TakesOfShelf, debug_program};
ghost use Rattle.debug_commands.specs.Laws.{LawsOfDebugRuns};

use crate::gcounts::gcounts;
use crate::glist::glist;
use crate::grun::grun;
use crate::gsteps::gsteps;
use crate::list::list;
use crate::steps;
use crate::words::{read_debug_command, usage};
use bench_io::{Sink, Source, read_all};
use bench_shelf::Shelf;
use command_words::Words;
use debug_report_defs::DebugCommand;
use report_defs::{LARGEST_INPUT, Status};
use reports::{end_with_line, finish};
use std::alloc::Global;

/// Runs the command that the words say. It reads all of `input` before it writes, and `list` reads the files that the
/// source copies from `shelf` then. It writes the report to `out`, or a fault line or the usage line to `err`, and
/// takes all its memory before the first byte is written. The line of a step is written once the step is made.
///
/// The contract says of each status its cause, and what the input, the shelf and the outputs are then; that if what the
/// command reads is shown (the bytes of the input, and to `list` the files of the shelf too) and nothing fails, there
/// is one report on it, which was written whole, and the status is its own, or out of memory; how many bytes are taken
/// of the shelf at most; that the words which the machine holds are the linked memory of the interpreter's source, and
/// that for each i up to the last step of a program that is run the machine after the first i turns matches its state
/// after i steps, and its count, which the line of `gcounts` shows, is the number of instructions that lead to it,
/// within a bound by the number of steps; that `grun` reports as `run`; that the changes which are read from the lines
/// of the first i steps alone, made in the first state, give the state after i steps, and the front of each line its
/// number, its address and its instruction's text; that the bytes of the rows of a listing of a GPL source, at their
/// addresses, are the image of its source, and its names are the names of the source; that the listing of an assembler
/// source which is accepted shows its module; that what is refused by `glist` and `list` is what `gasm` and `asm`
/// refuse, by the same fault line, and that `gsteps` and `steps` write lines and then what `run` and `exec` write; and
/// that the changes which are read from the lines of the first i instructions alone, made in the first memory, give the
/// memory after i instructions, and the front of each line its number, the processor before it and its text.
#[tactic(auto, using(crate::proofs::Laws::laws))]
pub fn debug<S: Source, F: Shelf, O: Sink, E: Sink>(
    alloc: Global,
    words: &Words,
    input: &mut S,
    shelf: &mut F,
    out: &mut O,
    err: &mut E,
) -> Status
    ensures laws { LawsOfDebugRuns }
    ensures ends { EndsBy debug_program (record {
      parsed = debug_command words.now;
      before = record { input = S.state input.old; shelf = F.shelf shelf.old };
      after = record { input = S.state input.new; shelf = F.shelf shelf.new };
      outputs = record {
        out = O.state out.old;
        out' = O.state out.new;
        err = E.state err.old;
        err' = E.state err.new;
      };
    }) result }
    ensures shelf { TakesOfShelf (debug_command words.now) (F.shelf shelf.old) (F.shelf shelf.new) }
    ensures later { CountsGrew (F.shelf shelf.old) (F.shelf shelf.new) }
{
    match read_debug_command(words) {
        Some(command) => run_debug_command(alloc, command, input, shelf, out, err),
        None => end_with_line(usage(), Status::Usage, err),
    }
}

/// Runs a command. The run ends as [`debug`] does under words that say it.
fn run_debug_command<S: Source, F: Shelf, O: Sink, E: Sink>(
    alloc: Global,
    command: DebugCommand,
    input: &mut S,
    shelf: &mut F,
    out: &mut O,
    err: &mut E,
) -> Status
    requires { KeepsLimit command }
    ensures ends { EndsBy debug_program (record {
      parsed = Some command;
      before = record { input = S.state input.old; shelf = F.shelf shelf.old };
      after = record { input = S.state input.new; shelf = F.shelf shelf.new };
      outputs = record {
        out = O.state out.old;
        out' = O.state out.new;
        err = E.state err.old;
        err' = E.state err.new;
      };
    }) result }
    ensures later { CountsGrew (F.shelf shelf.old) (F.shelf shelf.new) }
{
    let bytes = match read_all(alloc, input, LARGEST_INPUT) {
        Ok(bytes) => bytes,
        Err(error) => return finish(&Err(error.into()), out, err),
    };
    let input = bytes.as_slice();
    match command {
        DebugCommand::Glist => glist(alloc, input, out, err),
        DebugCommand::List => list(alloc, shelf, input, out, err),
        DebugCommand::Grun { limit } => grun(alloc, limit, input, out, err),
        DebugCommand::Gsteps { limit } => gsteps(alloc, limit, input, out, err),
        DebugCommand::Gcounts { limit } => gcounts(alloc, limit, input, out, err),
        DebugCommand::Steps { limit } => steps(alloc, limit, input, out, err),
    }
}
