//! How much of a source is read.

/// The most bytes that an input has, and a file that `link` reads.
pub const LARGEST_INPUT: usize = 1_048_576;
