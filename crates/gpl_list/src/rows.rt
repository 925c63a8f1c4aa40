//! The rows of a listing.

ghost use Rattle.std.specs.Prelude.{◌≤◌, vec_len};

use asm_text::Name;
use gpl_source_defs::Location;

/// A line that is listed.
#[derive(Drop)]
pub(crate) struct Row {
    /// The number of the line, from 1.
    pub(crate) number: u32,
    /// Its place.
    pub(crate) at: Location,
    /// Its address, which is the address of its place, or the one that it sets; and 65,536 after the last of all.
    pub(crate) address: u32,
    /// The bytes that it places, as far as they are known.
    pub(crate) bytes: Vec<u8>,
    /// Its text.
    pub(crate) text: Vec<u8>,
    ghost fits: { vec_len text ≤ 256 },
}

/// A name that is listed.
#[derive(Clone, Copy)]
pub(crate) struct NameRow {
    /// The name.
    pub(crate) name: Name,
    /// What it stands for.
    pub(crate) value: u16,
    /// The number of the line that defines it.
    pub(crate) line: u32,
}
