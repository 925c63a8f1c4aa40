//! `link` with files.

ghost use Rattle.std.specs.Prelude.{◌≡◌, ◌≤◌, length, Err};
ghost use Rattle.source_defs.specs.Refusals.{map_ok};
ghost use Rattle.bench_shelf.specs.Causes.{CountsGrew};
ghost use Rattle.report_defs.specs.ProgramCommands.{most_files};
ghost use Rattle.report_defs.specs.LinkedFiles.{linked_texts};
ghost use Rattle.report_defs.specs.FileReports.{files_report};
ghost use Rattle.file_commands.specs.Reading.{model_of_texts, refusal_of};
ghost use Rattle.file_commands.specs.Reported.{LinkReported, LinkFails};
ghost use Rattle.reports.specs.Answers.{answer, WantsMemory, Reported, error_answer};

use crate::causes::missing_line;
use crate::file_text::FileText;
use crate::modules::modules_of;
use crate::reading::read_files;
use bench_shelf::{FileError, FileName, Shelf};
use link_loader::link;
use report_defs::Fault;
use reports::{CommandError, Report};
use std::alloc::Global;

/// What is to be reported of up to 16 files of object text: the linked memory of their modules, or why there is none.
/// All files are read first, in their order, each of at most 1,048,576 bytes; then their texts are read in that order;
/// then the modules of all are linked. It is the report of the linked memory of the files by the answers of the shelf.
/// Each file is asked for once, and none after one that is missing or too large, or at which the shelf failed. A file
/// is reported as too large exactly where more than 1,048,576 bytes of one were taken, and then one more was.
///
/// # Errors
/// `Refused` and `Fault` say which file is missing or has a bad place, that one is too large, and why the modules
/// are not linked. `ReadFault` comes only where the shelf's count of faults rose, at the file that was asked for last,
/// and `Memory` is out of memory. Of no file more bytes were taken than it may have then.
pub fn link_files<F: Shelf>(
    alloc: Global,
    shelf: &mut F,
    names: &[FileName],
) -> Result<Report, CommandError>
    requires { length names.now ≤ most_files }
    ensures report { Reported (LinkReported (F.shelf shelf.old) (F.shelf shelf.new) names.now)
        (LinkFails names.now (F.shelf shelf.old) (F.shelf shelf.new)) (answer result) }
    ensures later { CountsGrew (F.shelf shelf.old) (F.shelf shelf.new) }
{
    match read_files(alloc, shelf, names) {
        Ok(texts) => link_texts(alloc, texts.as_slice()),
        Err(error) => Err(unread(error)),
    }
}

/// Why files are not read.
fn unread(error: FileError) -> CommandError
    ensures { error_answer result ≡ map_ok (λ refusal. files_report (Err refusal)) (refusal_of error) }
{
    match error {
        FileError::Missing(name) => CommandError::Refused(missing_line(name)),
        FileError::TooLarge => CommandError::Fault(Fault::TooLarge),
        FileError::Fault => CommandError::ReadFault,
        FileError::Memory => CommandError::Memory,
    }
}

/// What is to be reported of files that were read.
#[tactic(auto, using(crate::proofs::LinkLaws::bad_place, crate::proofs::LinkLaws::texts_linked))]
fn link_texts(alloc: Global, texts: &[FileText]) -> Result<Report, CommandError>
    requires { length texts.now ≤ most_files }
    ensures { Reported (λ report. report ≡ files_report (linked_texts (model_of_texts texts.now))) WantsMemory
        (answer result) }
{
    let modules = modules_of(alloc, texts)?;
    Ok(Report::Memory(link(alloc, &modules)?))
}
