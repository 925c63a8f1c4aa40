//! `asm`: the object text of an assembler source with the files that it copies.

ghost use Rattle.bench_shelf.specs.Causes.{CountsGrew};
ghost use Rattle.report_defs.specs.ProgramCommands.{AsmFiles};
ghost use Rattle.reports.specs.Answers.{answer};
ghost use Rattle.workbench.specs.Answered.{AnswersWith};

use bench_io::{Source, read_all};
use bench_shelf::Shelf;
use file_commands::asm_files;
use report_defs::LARGEST_INPUT;
use reports::{CommandError, Report};
use std::alloc::Global;

/// What is to be reported of the source that the input has.
#[tactic(auto, using(crate::proofs::Ends::asm_answered))]
pub(crate) fn asm<S: Source, F: Shelf>(
    alloc: Global,
    input: &mut S,
    shelf: &mut F,
) -> Result<Report, CommandError>
    ensures answers { AnswersWith AsmFiles
        (record { input = S.state input.old; shelf = F.shelf shelf.old })
        (record { input = S.state input.new; shelf = F.shelf shelf.new }) (answer result) }
    ensures later { CountsGrew (F.shelf shelf.old) (F.shelf shelf.new) }
{
    let source = read_all(alloc, input, LARGEST_INPUT)?;
    asm_files(alloc, shelf, source.as_slice())
}
