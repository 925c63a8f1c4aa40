//! What can be watched.

use gpl_defs::Space;

/// Something that is watched of a GPL program.
#[derive(Clone, Copy, Debug, PartialEq, Eq)]
pub enum Item {
    /// Bytes of one memory that lie together. It holds where a step changes one of them.
    Range {
        /// Which memory.
        space: Space,
        /// The address of the first byte; in the processor's memory it is from `>8300` on.
        at: u16,
        /// How many bytes, 1 at least.
        len: u16,
    },
    /// The address of an instruction. It holds where a step leads there.
    Pc(u16),
}
