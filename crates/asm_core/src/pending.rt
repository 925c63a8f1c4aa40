//! Lines of which a value is still open, and the line that is refused.

ghost use Rattle.std.specs.Prelude.{IsTrue};
ghost use Rattle.asm_core.specs.Held.{has_room};

use asm_defs::{AsmCause, Location};

/// A line of which a value is still open: a name that is unknown so far, or a use of one that others define.
#[derive(Drop)]
pub(crate) struct Pending {
    /// The number of the line, from 1.
    pub(crate) number: u32,
    /// Its place.
    pub(crate) at: Location,
    /// Its text.
    pub(crate) text: Vec<u8>,
    ghost room: { IsTrue (has_room at text.items) },
}

/// The first line that the second checks refuse whatever names are still to come.
#[derive(Drop)]
pub(crate) struct Refused {
    /// The number of the line, from 1.
    pub(crate) line: u32,
    /// Why it is refused.
    pub(crate) cause: AsmCause,
    /// The line itself where a value of it is still open, since values come before room.
    pub(crate) waiting: Option<Pending>,
}
