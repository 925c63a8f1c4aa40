//! Why a step stops.

/// Why a GPL program goes no further. A stop leaves the whole state as it was.
#[derive(Clone, Copy, Debug, PartialEq, Eq)]
pub enum Reason {
    /// The program leaves by EXIT.
    Exit,
    /// The code byte is no instruction's.
    Opcode,
    /// An operand, its pointer or its index is not all in the visible cells.
    Cell,
    /// A stack leaves the visible cells.
    Stack,
    /// MOVE is to copy more than 16,384 bytes.
    Length,
    /// MOVE would pass the last register of the video processor.
    Register,
}
