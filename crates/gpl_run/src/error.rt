//! Why the interpreter is not built.

ghost use Rattle.std.specs.Prelude.{◌≡◌};
ghost use Rattle.gpl_run.specs.declared.error.BuildError.TheVariants.{Memory};

use std::alloc::{AllocError, AllocFailed};

/// Why the interpreter is not built.
#[derive(Clone, Copy, Debug, PartialEq, Eq)]
pub enum BuildError {
    /// Memory ran out.
    Memory,
}

impl From<AllocError> for BuildError {
    ghost from_gives = { λ _ error. error ≡ Memory };

    fn from(_: AllocError) -> Self {
        BuildError::Memory
    }
}

impl<T: Drop> From<AllocFailed<T>> for BuildError {
    ghost from_gives = { λ _ error. error ≡ Memory };

    fn from(_: AllocFailed<T>) -> Self {
        BuildError::Memory
    }
}
