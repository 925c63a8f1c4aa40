//! Where a line is placed.

/// A place of a GPL source.
#[derive(Clone, Copy, Debug, PartialEq, Eq)]
pub struct Location {
    /// The first address of the GROM that was last set.
    pub grom: u32,
    /// The address, which is the next GROM's first after the last of this one, and 65,536 after the last of all.
    pub number: u32,
}
