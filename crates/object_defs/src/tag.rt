//! The tags of object text.

/// Whether a number stays as it is or moves with its module.
#[derive(Clone, Copy, Debug, PartialEq, Eq)]
pub enum Kind {
    /// The number itself.
    Absolute,
    /// The number, counted from the place of the module's relocatable code.
    Relocatable,
}

/// What a tag says of the group that it begins.
#[derive(Clone, Copy, Debug, PartialEq, Eq)]
pub enum Tag {
    /// `0`, or >01 in a compressed text: the length of the relocatable code and the module's name.
    Header,
    /// `1`, `2`: the entry.
    Entry(Kind),
    /// `3`, `4`: the place of the last use of a REF name.
    Reference(Kind),
    /// `5`, `6`: the value of a DEF name.
    Definition(Kind),
    /// `7`: the line's checksum.
    Sum,
    /// `8`: a checksum that is ignored.
    IgnoredSum,
    /// `9`, `A`: the load address.
    Address(Kind),
    /// `B`, `C`: a word at the load address.
    Word(Kind),
    /// `F`: the end of the line.
    EndOfLine,
    /// `:`, first in its line: the end of the module.
    EndOfModule,
}
