//! Where the scratchpad begins.

/// The address of the first cell of the scratchpad. Profile: the addresses of operands in it are offsets from here.
pub const SCRATCHPAD: u16 = 0x8300;
