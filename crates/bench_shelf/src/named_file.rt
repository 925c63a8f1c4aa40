//! A file by its name.

ghost use Rattle.std.specs.Prelude.{◌<◌, ◌≤◌, IfOk, IfErr, OnOk, length};
ghost use Rattle.shelf_defs.specs.Questions.{Bytes};
ghost use Rattle.bench_shelf.specs.Causes.{AsksOne, CountsGrew, FileCauses, IsOfName, ReadWithinLimit, answer_by};

use crate::error::{FileError, OpenError};
use crate::file_name::FileName;
use crate::shelf::Shelf;
use bench_io::{ReadError, read_all};
use std::alloc::Global;

/// The bytes of the file of a name, `limit` at most. The file is asked for once, and no other; no more than one byte
/// past the limit is taken.
///
/// # Errors
/// `Missing` carries the name, and comes only where the shelf's count of misses rose; `Fault` comes only where its
/// count of faults rose. `TooLarge` comes exactly where more than `limit` bytes were taken of the file, and `Memory`
/// means out of memory.
pub fn read_named<F: Shelf>(
    alloc: Global,
    shelf: &mut F,
    name: &FileName,
    limit: usize,
) -> Result<Vec<u8>, FileError>
    requires { limit < usize.MAX }
    ensures given { IfOk result (λ bytes.
        AsksOne limit name.now (Bytes bytes.items) (F.shelf shelf.old) (F.shelf shelf.new)) }
    ensures refused { IfErr result (λ error.
        AsksOne limit name.now (answer_by error) (F.shelf shelf.old) (F.shelf shelf.new)) }
    ensures missed { IfErr result (IsOfName name.now) }
    ensures size { IfOk result (λ bytes. length bytes.items ≤ limit) }
    ensures causes { IfErr result (λ error. FileCauses limit error (F.shelf shelf.old) (F.shelf shelf.new)) }
    ensures within { OnOk result (ReadWithinLimit limit (F.shelf shelf.old) (F.shelf shelf.new)) }
    ensures later { CountsGrew (F.shelf shelf.old) (F.shelf shelf.new) }
{
    match shelf.open_file(name) {
        Ok(()) => {}
        Err(OpenError::Failed) => return Err(FileError::Fault),
        Err(OpenError::Missing) => return Err(FileError::Missing(*name)),
    }
    match read_all(alloc, shelf, limit) {
        Ok(bytes) => Ok(bytes),
        Err(ReadError::TooLarge) => Err(FileError::TooLarge),
        Err(ReadError::Fault) => Err(FileError::Fault),
        Err(ReadError::Memory) => Err(FileError::Memory),
    }
}
