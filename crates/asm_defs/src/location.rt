//! Where a line is placed.

/// What a location belongs to.
#[derive(Clone, Copy, Debug, PartialEq, Eq)]
pub enum Part {
    /// Code that moves when its module is placed.
    Relocatable,
    /// Code at addresses of its own.
    Absolute,
    /// Addresses at which nothing is placed.
    Dummy,
}

/// A place of a source.
#[derive(Clone, Copy, Debug, PartialEq, Eq)]
pub struct Location {
    /// What it belongs to.
    pub part: Part,
    /// The number of the place, which is 65,536 after the last.
    pub number: u32,
}
