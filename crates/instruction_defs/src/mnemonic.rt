//! What an operation field names.

use tms_defs::Operation;

/// What an operation field names.
#[derive(Clone, Copy, Debug, PartialEq, Eq)]
pub enum Mnemonic {
    /// An operation of the processor.
    Of(Operation),
    /// A word, which has a name of its own: NOP and RT.
    Fixed(u16),
}
