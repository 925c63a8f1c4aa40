//! Why a source is not assembled.

ghost use Rattle.std.specs.Prelude.{◌≡◌};
ghost use Rattle.asm_core.specs.declared.error.AsmError.TheVariants.{Memory};

use asm_defs::AsmCause;
use std::alloc::AllocError;

/// Why an assembler source is not assembled.
#[derive(Clone, Copy, Debug, PartialEq, Eq)]
pub enum AsmError {
    /// A line is refused: the first that the first checks refuse, else the first that the second checks refuse.
    At {
        /// The number of the line, from 1.
        line: u32,
        /// What is wrong with it.
        cause: AsmCause,
    },
    /// Memory ran out.
    Memory,
}

impl From<AllocError> for AsmError {
    ghost from_gives = { λ _ error. error ≡ Memory };

    fn from(_: AllocError) -> Self {
        AsmError::Memory
    }
}
