//! How a step of the processor ends.

/// How a step ends.
#[derive(Clone, Copy, Debug, PartialEq, Eq)]
pub enum StepEnd {
    /// The instruction was executed; this is its first word.
    Done(u16),
    /// The word of the instruction, at this address, is none that is executed here.
    Refused(u16),
    /// The instruction makes a word access to the port at this address.
    Port(u16),
}
