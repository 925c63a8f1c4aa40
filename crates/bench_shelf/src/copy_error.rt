//! Why a source with the files that it copies is not assembled.

use crate::file_name::FileName;
use asm_defs::AsmCause;

/// Why a line is refused.
#[derive(Clone, Copy, Debug, PartialEq, Eq)]
pub enum CopyCause {
    /// The assembler refuses it.
    Asm(AsmCause),
    /// A COPY line has a label, or its operand is no name of a file in quotes.
    BadCopy,
    /// A COPY line is in a file that is copied four deep.
    TooDeep,
    /// It is the 65th COPY line.
    TooMany,
    /// No file has the name.
    Missing(FileName),
}

/// Why a source with the files that it copies is not assembled.
#[derive(Clone, Copy, Debug, PartialEq, Eq)]
pub enum CopyError {
    /// A line is refused: the first that cannot be copied or that the first checks refuse, else the first that the
    /// second checks refuse.
    At {
        /// The file that it is in, or `None` for the source itself.
        file: Option<FileName>,
        /// The number of the line there, from 1.
        line: u32,
        /// What is wrong with it.
        cause: CopyCause,
    },
    /// A file has more than 262,144 bytes.
    TooLarge,
    /// The shelf failed.
    Fault,
    /// Memory ran out.
    Memory,
}
