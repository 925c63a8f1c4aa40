//! Why a fault line is in the place of a report.

/// What a fault line says.
#[derive(Clone, Copy, Debug, PartialEq, Eq)]
pub enum Fault {
    /// The words of the command line are no command.
    Usage,
    /// The input, or a file, has more bytes than it may have.
    TooLarge,
    /// The bytes of `dis` or `gdis` run past >FFFF from its address on.
    PastEnd,
    /// The GPL source of a command that runs it names no entry.
    NoEntry,
}
