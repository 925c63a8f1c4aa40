//! The bytes of a machine that an instruction changes, by their parts.

/// A part of what is seen of a machine that is a list of bytes.
#[derive(Clone, Copy, PartialEq, Eq, Debug)]
pub enum Area {
    /// The 256 bytes of the scratchpad, from >8300.
    Scratchpad,
    /// The 8,192 bytes of the low expansion memory, from >2000.
    LowExpansion,
    /// The 24,576 bytes of the high expansion memory, from >A000.
    HighExpansion,
    /// The 16,384 bytes of the video memory.
    Video,
    /// The eight registers of the video processor.
    Registers,
}
