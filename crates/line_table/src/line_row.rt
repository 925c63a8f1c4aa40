//! The rows of the table.

use asm_text::Name;

/// A line of the interpreter's source, by its place and the words that it places.
#[derive(Clone, Copy, Debug, PartialEq, Eq)]
pub struct LineRow {
    /// The number of the line's location: from `>2000` on it is an address, and before the origin it is 0.
    pub place: u16,
    /// How many words the line places, at most 3.
    pub count: u8,
    /// These words, and 0 after them.
    pub words: [u16; 3],
}

/// A name of the interpreter's source.
#[derive(Clone, Copy, Debug, PartialEq, Eq)]
pub struct NameRow {
    /// The name: the label of a line.
    pub name: Name,
    /// What it stands for: the line's place, or the number that EQU gives.
    pub value: u16,
}
