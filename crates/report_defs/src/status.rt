//! How the program ends.

/// How a command ended. Its number is the program's exit status; 6 is the number of none.
#[derive(Clone, Copy, Debug, PartialEq, Eq)]
pub enum Status {
    /// The report is whole.
    Done = 0,
    /// The input or a file is refused, or a file is missing.
    Refused = 1,
    /// The words of the command line are no command.
    Usage = 2,
    /// The input or a file could not be read.
    ReadFault = 3,
    /// The report, or a fault line in its place, could not be written whole.
    WriteFault = 4,
    /// Memory ran out.
    Memory = 5,
    /// The report is whole, and its machine stopped at a word that is not executed or at a port, or its GPL program at
    /// a step that cannot be made.
    Stopped = 7,
}
