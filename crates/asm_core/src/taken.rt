//! What a builder returns of a line.

ghost use Rattle.std.specs.Prelude.{◌≤◌};

use asm_defs::Location;
use asm_text::Name;

/// Where a line is placed that a builder has taken, and the names that it defines.
#[derive(Drop)]
pub struct TakenLine {
    /// Its place.
    pub at: Location,
    /// The location that it sets, if it sets one.
    pub origin: Option<Location>,
    /// Its label.
    pub label: Option<Name>,
    /// Its names of REF.
    pub refs: Vec<Name>,
    ghost within: { at.number ≤ 65536 },
}
