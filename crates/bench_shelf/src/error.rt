//! Why a file is not opened, or not read.

ghost use Rattle.std.specs.Prelude.{◌≡◌};
ghost use Rattle.bench_shelf.specs.declared.error.FileError.TheVariants as unread;

use crate::file_name::FileName;
use std::alloc::AllocFailed;

/// Why a shelf did not open a file.
#[derive(Clone, Copy, Debug, PartialEq, Eq)]
pub enum OpenError {
    /// The shelf failed. Its count of faults has risen.
    Failed,
    /// It has no file of that name. Its count of misses has risen.
    Missing,
}

/// Why the file of a name was not read.
#[derive(Clone, Copy, Debug, PartialEq, Eq)]
pub enum FileError {
    /// The shelf has no file of this name. Its count of misses has risen.
    Missing(FileName),
    /// The file has more bytes than its limit, of which one more was taken.
    TooLarge,
    /// The shelf failed. Its count of faults has risen.
    Fault,
    /// Memory ran out.
    Memory,
}

impl<T: Drop> From<AllocFailed<T>> for FileError {
    ghost from_gives = { λ _ error. error ≡ unread.Memory };

    fn from(_: AllocFailed<T>) -> Self {
        FileError::Memory
    }
}
