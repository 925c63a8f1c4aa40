//! Why an object text is refused.

/// What is wrong at the first bad place of an object text.
#[derive(Clone, Copy, Debug, PartialEq, Eq)]
pub enum TagCause {
    /// A group is refused: its tag is none that may be in its place, or its name is no name. It carries the tag.
    BadTag(u8),
    /// One of the four characters after a tag is no hexadecimal digit. It does not come for a compressed text.
    BadDigit,
    /// The line ends inside a group.
    ShortField,
    /// The checksum is not the checksum of the line.
    Checksum {
        /// The checksum that is in the line.
        found: u16,
        /// The line's checksum.
        computed: u16,
    },
    /// The last module has no end.
    NoEnd,
    /// A group passes a limit: the 65th module, or of one module the 257th DEF or REF or the 32,769th word.
    TooMany,
}
