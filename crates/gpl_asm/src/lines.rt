//! The assembler as a builder that takes its lines one at a time.

ghost use Rattle.std.specs.Prelude.{◌≡◌};
ghost use Rattle.std.specs.FinMap.{empty};
ghost use Rattle.gpl_source_defs.specs.Locations.{IsInGrom};
ghost use Rattle.gpl_asm.specs.Room.{AllHaveRoom, all_have_room_prop};

use crate::pending::Pending;
use asm_text::Symbols;
use gpl_forms::GromImage;
use gpl_source_defs::Location;
use std::alloc::Global;

/// A GPL source, line by line. A line waits for the second pass by its outcome; its text is kept only where a
/// value of it is still open.
///
/// Contracts see it by the lines that it has taken (`HasAccepted`).
/// That what waits has room, whatever names come, is a ghost field, so `finish` asks nothing of its callers.
#[derive(Drop)]
pub struct GplLines {
    pub(crate) alloc: Global,
    pub(crate) symbols: Symbols,
    pub(crate) location: Location,
    pub(crate) waiting: Vec<Pending>,
    // Nothing is written in it before the lines are finished.
    pub(crate) image: GromImage,
    pub(crate) taken: u32,
    pub(crate) ended: bool,
    ghost placed: { IsInGrom location },
    ghost blank: { image ≡ empty },
    ghost room: { AllHaveRoom symbols waiting.items } by { all_have_room_prop symbols waiting.items },
}
