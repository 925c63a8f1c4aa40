//! What is at a place.

use object_defs::Spot;

/// A byte that a line places.
#[derive(Clone, Copy, Debug, PartialEq, Eq)]
pub enum Content {
    /// A byte of its own.
    Byte(u8),
    /// The first byte of a word.
    First(Spot),
    /// The second byte of the word before it.
    Second,
}
