//! How a run of the processor ends.

/// How a run of steps ends.
#[derive(Clone, Copy, Debug, PartialEq, Eq)]
pub enum RunEnd {
    /// The program counter is at the address that ends the run.
    Reached,
    /// As many instructions were executed as the limit says.
    Limit,
    /// A step was refused: the word of the instruction, at this address, is none that is executed here.
    Refused(u16),
    /// A step made a word access to the port at this address.
    Port(u16),
    /// The instruction that was executed last is a jump to itself, >10FF.
    SelfJump,
}
