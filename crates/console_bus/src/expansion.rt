//! The parts of the expansion memory.

/// A part of the expansion memory (Editor/Assembler manual, on the memory of the computer).
#[derive(Clone, Copy, Debug, PartialEq, Eq)]
pub enum Expansion {
    /// The 8 KiB from >2000 on.
    Low,
    /// The 24 KiB from >A000 on.
    High,
}
