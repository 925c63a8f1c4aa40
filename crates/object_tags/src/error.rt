//! Why an object text is not read.

ghost use Rattle.std.specs.Prelude.{◌≡◌};
ghost use Rattle.object_tags.specs.declared.error.TagError.TheVariants.{Memory};
ghost use Rattle.object_tags.specs.declared.error.Failure.TheVariants as failures;

use object_defs::TagCause;
use std::alloc::{AllocError, AllocFailed};

/// Why an object text is not read.
#[derive(Clone, Copy, Debug, PartialEq, Eq)]
pub enum TagError {
    /// The first bad place of the text.
    At {
        /// The number of its line, from 1.
        line: u32,
        /// What is wrong there.
        cause: TagCause,
    },
    /// Memory ran out.
    Memory,
}

impl From<AllocError> for TagError {
    ghost from_gives = { λ _ error. error ≡ Memory };

    fn from(_: AllocError) -> Self {
        TagError::Memory
    }
}

/// Why a group or a line is not read.
#[derive(Clone, Copy)]
pub(crate) enum Failure {
    /// It is refused.
    Cause(TagCause),
    /// Memory ran out.
    Memory,
}

impl From<TagCause> for Failure {
    ghost from_gives = { λ cause failure. failure ≡ failures.Cause cause };

    fn from(cause: TagCause) -> Self {
        Failure::Cause(cause)
    }
}

impl From<AllocError> for Failure {
    ghost from_gives = { λ _ failure. failure ≡ failures.Memory };

    fn from(_: AllocError) -> Self {
        Failure::Memory
    }
}

impl<T: Drop> From<AllocFailed<T>> for Failure {
    ghost from_gives = { λ _ failure. failure ≡ failures.Memory };

    fn from(_: AllocFailed<T>) -> Self {
        Failure::Memory
    }
}
