//! Places, and the words that are there.

/// A number that stays as it is, or one that moves with the module's relocatable code when that is placed.
#[derive(Clone, Copy, Debug, PartialEq, Eq)]
pub enum Spot {
    /// The number itself.
    Absolute(u16),
    /// The number, counted from the place of the module's relocatable code.
    Relocatable(u16),
}

/// A word of a module and its place.
#[derive(Clone, Copy, Debug, PartialEq, Eq)]
pub struct Piece {
    /// The word's place, which is even.
    pub at: Spot,
    /// The word.
    pub word: Spot,
}
