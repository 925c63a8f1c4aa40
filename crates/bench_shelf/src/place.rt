//! Where a line stands: in the source or a file that it copies, with its number there.

ghost use Rattle.std.specs.Prelude.{◌≡◌};
ghost use Rattle.bench_shelf.specs.CopyAnswers.{failed_at, place_in, refused_at, unread_at};

use crate::copy_error::{CopyCause, CopyError};
use crate::error::FileError;
use crate::file_name::FileName;
use asm_checks::Failure;

/// Where a line stands.
#[derive(Clone, Copy)]
pub(crate) struct Place {
    /// The file, or `None` for the source itself.
    pub(crate) file: Option<FileName>,
    /// The number of the line there, from 1.
    pub(crate) line: u32,
}

impl Place {
    /// The error of a line that is here.
    pub(crate) fn refused(self, cause: CopyCause) -> CopyError
        ensures { result ≡ refused_at self cause }
    {
        CopyError::At {
            file: self.file,
            line: self.line,
            cause,
        }
    }

    /// The error of a line that is here and was not taken.
    pub(crate) fn failed(self, failure: Failure) -> CopyError
        ensures { result ≡ failed_at self failure }
    {
        match failure {
            Failure::Refused(cause) => self.refused(CopyCause::Asm(cause)),
            Failure::Memory => CopyError::Memory,
        }
    }

    /// The error of a COPY line that is here and whose file was not read.
    pub(crate) fn unread(self, error: FileError) -> CopyError
        ensures { result ≡ unread_at self error }
    {
        match error {
            FileError::Missing(name) => self.refused(CopyCause::Missing(name)),
            FileError::TooLarge => CopyError::TooLarge,
            FileError::Fault => CopyError::Fault,
            FileError::Memory => CopyError::Memory,
        }
    }
}

/// The place of a line of a file, or of the source itself.
pub(crate) fn place_in(file: &Option<FileName>, line: u32) -> Place
    ensures { result ≡ place_in file.now line }
{
    Place { file: *file, line }
}
