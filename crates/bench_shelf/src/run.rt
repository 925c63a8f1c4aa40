//! Lines of one file, one after the other.

ghost use Rattle.std.specs.Prelude.{◌≤◌, ◌+◌, ◌^◌};

use crate::file_name::FileName;

/// Lines of one file, one after the other from a place on.
#[derive(Clone, Copy)]
pub(crate) struct Run {
    /// The file, or `None` for the source itself.
    pub(crate) file: Option<FileName>,
    /// The number of the first of them there, from 1.
    pub(crate) line: u32,
    /// How many they are.
    pub(crate) count: u32,
    ghost within: { line + count ≤ 2 ^ 32 },
}
