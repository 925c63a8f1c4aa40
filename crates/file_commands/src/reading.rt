//! Files that are read whole, one after the other.

ghost use Rattle.std.specs.Prelude.{IfErr, OnOk};
ghost use Rattle.bench_shelf.specs.Causes.{FileCauses, CountsGrew, ReadWithinLimit};
ghost use Rattle.report_defs.specs.Report.{largest_input};
ghost use Rattle.file_commands.specs.Reading.{Reads, model_of_texts};

use crate::file_text::FileText;
use bench_shelf::{FileError, FileName, Shelf, read_named};
use report_defs::LARGEST_INPUT;
use std::alloc::Global;

/// Reads files by their names, in this order, each of which is asked for once. The first that is missing or too large
/// ends the reading, and none after it is asked for.
pub(crate) fn read_files<F: Shelf>(
    alloc: Global,
    shelf: &mut F,
    names: &[FileName],
) -> Result<Vec<FileText>, FileError>
    ensures reads { Reads (λ texts. model_of_texts texts.items) names.now result
        (F.shelf shelf.old) (F.shelf shelf.new) }
    ensures causes { IfErr result (λ error. FileCauses largest_input error (F.shelf shelf.old) (F.shelf shelf.new)) }
    ensures within { OnOk result (ReadWithinLimit largest_input (F.shelf shelf.old) (F.shelf shelf.new)) }
    ensures later { CountsGrew (F.shelf shelf.old) (F.shelf shelf.new) }
{
    let mut texts = Vec::new(alloc);
    for name in names {
        match read_named(alloc, shelf, name, LARGEST_INPUT) {
            Ok(bytes) => texts.push(FileText { name: *name, bytes })?,
            Err(error) => return Err(error),
        }
    }
    Ok(texts)
}
