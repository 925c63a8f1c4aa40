//! What a builder returns of a line.

use asm_text::Name;
use gpl_source_defs::Location;

/// Where a line stands that a builder has taken, and what it defines.
#[derive(Clone, Copy, Debug)]
pub struct TakenLine {
    /// Its place.
    pub at: Location,
    /// The location that it sets, if it sets one.
    pub origin: Option<Location>,
    /// Its label.
    pub label: Option<Name>,
    /// What a label of the line stands for.
    pub value: u16,
}
