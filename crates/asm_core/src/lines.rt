//! The assembler as a builder that takes its lines one at a time.

ghost use Rattle.std.specs.Prelude.{◌≤◌, IsTrue};
ghost use Rattle.asm_defs.specs.Locations as places;

use crate::pending::{Pending, Refused};
use asm_defs::Location;
use asm_text::{Name, Symbols};
use module_image::Image;
use object_tags::ModuleName;
use std::alloc::Global;

/// An assembler source, line by line. What a line places is placed when it is taken; a line is kept only where a value
/// of it is still open, and zeros hold its places.
///
/// Contracts see it by the lines that it has taken (`HasAccepted`). If memory runs out the builder is as before, but
/// the tables of its two parts may be there: the first line makes them, also if it is a comment.
#[derive(Drop)]
pub struct AsmLines {
    pub(crate) alloc: Global,
    pub(crate) symbols: Symbols,
    pub(crate) location: Location,
    // The highest relocatable location that was reached.
    pub(crate) reached: u32,
    pub(crate) title: ModuleName,
    pub(crate) defs: Vec<Name>,
    pub(crate) refs: Vec<Name>,
    // What the lines place, up to the first that is refused. There is none before the first line.
    pub(crate) image: Option<Image>,
    pub(crate) waiting: Vec<Pending>,
    pub(crate) refused: Option<Refused>,
    pub(crate) taken: u32,
    pub(crate) ended: bool,
    ghost placed: { IsTrue (places.is_in_part location) },
    ghost reach: { reached ≤ 65535 },
}
