//! The parts of a source text, by their places.

/// A part of a text: the bytes from `start` up to `end`, each counted from 0.
#[derive(Clone, Copy, Debug, PartialEq, Eq)]
pub struct Span {
    /// The place of the first byte.
    pub start: usize,
    /// The place after the last byte.
    pub end: usize,
}

/// A line of a text, without the line feed that ends it or a carriage return before that.
#[derive(Clone, Copy, Debug, PartialEq, Eq)]
pub struct Line {
    /// The number of the line, from 1.
    pub number: u32,
    /// Where the line is in its text.
    pub span: Span,
}
