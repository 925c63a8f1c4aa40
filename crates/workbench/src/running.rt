//! The program, over any input, shelf and outputs.

ghost use Rattle.bench_shelf.specs.Causes.{CountsGrew};
ghost use Rattle.report_defs.specs.ProgramCommands.{program_command};
ghost use Rattle.reports.specs.Run.{EndsBy};
ghost use Rattle.workbench.specs.FileProgram.{TakesOfShelf, file_program};
ghost use Rattle.workbench.specs.Laws.{LawsOfFileRuns};

use crate::command::{ProgramCommand, read_program_command};
use crate::over_files::report_over;
use crate::usage::usage;
use bench_commands::run_command;
use bench_io::{Sink, Source};
use bench_shelf::Shelf;
use command_words::Words;
use report_defs::Status;
use reports::{end_with_line, finish};
use std::alloc::Global;

/// Runs the command that the words say. `asm` reads the source from `input` and the files that it copies from `shelf`;
/// `link` with names of files reads these, in their order; `watch` reads a GPL source from `input`; every other command
/// is run as [`bench_commands::bench`] runs it, whose whole clause it has. The report goes to `out`, or a fault line or
/// the usage line to `err`, and all memory is taken before the first byte is written.
///
/// The contract says of each status its cause, and what the input, the shelf and the outputs are then; that there is at
/// most one report on each command, input and files; that where what the command reads is known (the input's bytes, the
/// shelf's files, or both) and nothing fails, the answer is that report with its status, or memory ran out; how many
/// bytes are taken of the shelf at most; and that what `watch` finds is the first step at which an item holds.
#[tactic(auto, using(crate::proofs::Laws::laws))]
pub fn bench_with<S: Source, F: Shelf, O: Sink, E: Sink>(
    alloc: Global,
    words: &Words,
    input: &mut S,
    shelf: &mut F,
    out: &mut O,
    err: &mut E,
) -> Status
    ensures laws { LawsOfFileRuns }
    ensures ends { EndsBy file_program (record {
      parsed = program_command words.now;
      before = record { input = S.state input.old; shelf = F.shelf shelf.old };
      after = record { input = S.state input.new; shelf = F.shelf shelf.new };
      outputs = record {
        out = O.state out.old;
        out' = O.state out.new;
        err = E.state err.old;
        err' = E.state err.new;
      };
    }) result }
    ensures shelf { TakesOfShelf (program_command words.now) (F.shelf shelf.old) (F.shelf shelf.new) }
    ensures later { CountsGrew (F.shelf shelf.old) (F.shelf shelf.new) }
{
    match read_program_command(words) {
        Some(ProgramCommand::OverFiles(command)) => {
            finish(&report_over(alloc, &command, input, shelf), out, err)
        }
        Some(ProgramCommand::Plain(command)) => run_command(alloc, command, input, out, err),
        None => end_with_line(usage(), Status::Usage, err),
    }
}
