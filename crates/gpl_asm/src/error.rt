//! Why a source is not assembled.

ghost use Rattle.std.specs.Prelude.{◌≡◌};
ghost use Rattle.gpl_asm.specs.Errors.{refusal_at};
ghost use Rattle.gpl_asm.specs.declared.error.GplError.TheVariants.{Memory};

use gpl_lines::Failure;
use gpl_source_defs::GplCause;
use std::alloc::AllocError;

/// Why a GPL source is not assembled.
#[derive(Clone, Copy, Debug, PartialEq, Eq)]
pub enum GplError {
    /// A line is refused: the first that the first checks refuse, else the first that the second checks refuse.
    At {
        /// The number of the line, from 1.
        line: u32,
        /// What is wrong with it.
        cause: GplCause,
    },
    /// Memory ran out.
    Memory,
}

impl From<AllocError> for GplError {
    ghost from_gives = { λ _ error. error ≡ Memory };

    fn from(_: AllocError) -> Self {
        GplError::Memory
    }
}

/// The error of a line by its number.
pub fn refusal_at(line: u32, failure: Failure) -> GplError
    ensures { result ≡ refusal_at line failure }
{
    match failure {
        Failure::Refused(cause) => GplError::At { line, cause },
        Failure::Memory => GplError::Memory,
    }
}
