//! Why modules are not linked.

ghost use Rattle.std.specs.Prelude.{◌≡◌};
ghost use Rattle.link_loader.specs.declared.error.LinkError.TheVariants.{Memory};

use asm_text::Name;
use std::alloc::{AllocError, AllocFailed};

/// Why modules are not linked. Of several causes the first kind in this order comes, and of one kind the first place in
/// the order of the modules.
#[derive(Clone, Copy, Debug, PartialEq, Eq)]
pub enum LinkError {
    /// A DEF defines a name that one before it defines.
    DuplicateDef(Name),
    /// A word is at an odd address, or at one where no word may be loaded. The address is computed without wrap.
    OutOfMemoryRange(u32),
    /// A word is at the address of another.
    Overlap(u16),
    /// A chain reaches a place that holds no loaded word.
    ChainOutside(u16),
    /// A chain reaches a place that it or an earlier one has passed.
    ChainCycle(u16),
    /// No module defines a REF name.
    Unresolved(Name),
    /// No module says where the program is entered.
    NoEntry,
    /// Memory ran out.
    Memory,
}

impl From<AllocError> for LinkError {
    ghost from_gives = { λ _ error. error ≡ Memory };

    fn from(_: AllocError) -> Self {
        LinkError::Memory
    }
}

impl<T: Drop> From<AllocFailed<T>> for LinkError {
    ghost from_gives = { λ _ error. error ≡ Memory };

    fn from(_: AllocFailed<T>) -> Self {
        LinkError::Memory
    }
}
