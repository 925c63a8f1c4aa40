//! `asm` with the files that the source copies.

ghost use Rattle.std.specs.Prelude.{◌≡◌, ◌≤◌, length, IfOk};
ghost use Rattle.object_defs.specs.Writing.{written_lines};
ghost use Rattle.object_tags.specs.Lines.{line_bytes};
ghost use Rattle.object_tags.specs.Seen.{model_of_module};
ghost use Rattle.bench_shelf.specs.Causes.{CountsGrew};
ghost use Rattle.bench_shelf.specs.Answered.{IsOfLines};
ghost use Rattle.report_defs.specs.Report.{largest_input};
ghost use Rattle.file_commands.specs.Reported.{CopyReported, CopyFails};
ghost use Rattle.reports.specs.Answers.{answer, Reported};

use crate::causes::command_error;
use bench_shelf::{Shelf, copy_assemble};
use object_tags::{Module, ObjectLine, write_lines};
use reports::{CommandError, Report};
use std::alloc::{AllocError, Global};

/// What is to be reported of a source of at most 1,048,576 bytes with the files of a shelf that it copies: the object
/// text of its module, or the first line that is refused, or that a file is too large, by the answers of the shelf. The
/// shelf is asked for each file that the source copies, in the order of the lines, each once, and for no other. A file
/// is reported as too large exactly where more than 262,144 bytes of one were taken, and then one more was.
///
/// # Errors
/// `Refused` carries a refused line, and `Fault` says that a file is too large. `ReadFault` comes only where the
/// shelf's count of faults rose, at the file that was asked for last, and `Memory` is out of memory. Of no file more
/// bytes were taken than it may have then.
pub fn asm_files<F: Shelf>(
    alloc: Global,
    shelf: &mut F,
    text: &[u8],
) -> Result<Report, CommandError>
    requires { length text.now ≤ largest_input }
    ensures report { Reported (CopyReported (F.shelf shelf.old) (F.shelf shelf.new) text.now)
        (CopyFails (F.shelf shelf.old) (F.shelf shelf.new) text.now) (answer result) }
    ensures later { CountsGrew (F.shelf shelf.old) (F.shelf shelf.new) }
{
    match copy_assemble(alloc, shelf, text) {
        Ok(module) => Ok(Report::Object(lines_of(alloc, &module)?)),
        Err(error) => Err(command_error(error)),
    }
}

/// The lines of the object text of a module of some lines.
fn lines_of(alloc: Global, module: &Module) -> Result<Vec<ObjectLine>, AllocError>
    requires { IsOfLines (model_of_module «module».now) }
    ensures { IfOk result (λ lines. line_bytes lines.items ≡ written_lines (model_of_module «module».now)) }
{
    write_lines(alloc, module)
}
