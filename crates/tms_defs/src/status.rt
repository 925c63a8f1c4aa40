//! The status register, bit by bit.

use crate::flags::Flags;

/// The status register, bit by bit. TMS9900 data manual, "Status register".
#[derive(Clone, Copy, Debug, PartialEq, Eq)]
pub struct Status {
    /// L>, A>, EQ, C and OV: the bits >8000 to >0800.
    pub flags: Flags,
    /// OP, >0400: odd parity.
    pub op: bool,
    /// The other ten bits as they are in the register: X is >0200, the interrupt mask is >000F, and the bits
    /// between them have no meaning and are kept. Below 1,024.
    pub rest: u16,
}
