//! The commands that only the program with files has.

ghost use Rattle.bench_shelf.specs.Causes.{CountsGrew};
ghost use Rattle.reports.specs.Answers.{answer};
ghost use Rattle.workbench.specs.Answered.{AnswersWith};
ghost use Rattle.workbench.specs.Asked.{model_of_over};

use crate::asm::asm;
use crate::command::FileCommand;
use crate::watch::watch;
use bench_io::Source;
use bench_shelf::Shelf;
use file_commands::link_files;
use reports::{CommandError, Report};
use std::alloc::Global;

/// What such a command reports on what it reads of the input and of the shelf, or why it reports nothing.
pub(crate) fn report_over<S: Source, F: Shelf>(
    alloc: Global,
    command: &FileCommand,
    input: &mut S,
    shelf: &mut F,
) -> Result<Report, CommandError>
    ensures answers { AnswersWith (model_of_over command.now)
        (record { input = S.state input.old; shelf = F.shelf shelf.old })
        (record { input = S.state input.new; shelf = F.shelf shelf.new }) (answer result) }
    ensures later { CountsGrew (F.shelf shelf.old) (F.shelf shelf.new) }
{
    match command {
        FileCommand::AsmFiles => asm(alloc, input, shelf),
        FileCommand::LinkFiles(names) => link_files(alloc, shelf, names.as_slice()),
        FileCommand::Watch { limit, items } => watch(alloc, *limit, items, input),
    }
}
