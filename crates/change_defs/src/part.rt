//! The parts of a state that a step changes.

/// What an instruction of GPL can change, but for the address of the next instruction.
#[derive(Clone, Copy, PartialEq, Eq, Debug)]
pub enum Part {
    /// The visible cells.
    Cells,
    /// The video memory.
    Video,
    /// The registers of the video processor.
    Registers,
}
