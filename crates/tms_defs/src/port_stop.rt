//! The answer of a word access that meets a port.

/// A word access met one of the eight ports of the console, whose (even) address this is.
#[derive(Clone, Copy, PartialEq, Eq, Debug, Drop)]
pub struct PortStop(pub u16);
