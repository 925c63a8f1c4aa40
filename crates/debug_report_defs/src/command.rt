//! The commands of `ti_debug`.

/// A command, as the words of the command line say it.
#[derive(Clone, Copy, Debug, PartialEq, Eq)]
pub enum DebugCommand {
    /// `glist`: lists a GPL source, each line with its address and its bytes, and its names.
    Glist,
    /// `list`: lists an assembler source with the files that it copies, each line with its place and what it places,
    /// and its names.
    List,
    /// `grun N`: assembles a GPL source, and the interpreter runs up to N of its steps from the entry.
    Grun {
        /// The most steps, up to 10,000,000.
        limit: u32,
    },
    /// `gsteps N`: assembles a GPL source, and the interpreter runs up to N of its steps from the entry; each step
    /// is shown by a line with all that it changed.
    Gsteps {
        /// The most steps, up to 10,000,000.
        limit: u32,
    },
    /// `gcounts N`: assembles a GPL source, and the interpreter runs up to N of its steps from the entry; each step is
    /// shown by a line with how many instructions the processor has executed.
    Gcounts {
        /// The most steps, up to 10,000,000.
        limit: u32,
    },
    /// `steps N`: links object text and executes up to N instructions of its linked memory from the entry; each is
    /// shown by a line with all that it changed.
    Steps {
        /// The most instructions, up to 10,000,000.
        limit: u32,
    },
}

/// A command by its name alone.
#[derive(Clone, Copy, Debug, PartialEq, Eq)]
pub enum DebugName {
    Glist,
    List,
    Grun,
    Gsteps,
    Gcounts,
    Steps,
}

/// The commands of `ti_debug`, in the order of its usage line: the word that names each, and what the usage line shows
/// after it.
pub const COMMANDS: [(&[u8], &[u8], DebugName); 6] = [
    (b"glist", b"", DebugName::Glist),
    (b"list", b"", DebugName::List),
    (b"grun", b" N", DebugName::Grun),
    (b"gsteps", b" N", DebugName::Gsteps),
    (b"gcounts", b" N", DebugName::Gcounts),
    (b"steps", b" N", DebugName::Steps),
];
