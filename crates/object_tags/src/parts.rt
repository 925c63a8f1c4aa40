//! A module and its parts.

use crate::lists::{Defs, Pieces, Refs};
use crate::module_name::ModuleName;
use asm_text::Name;
use object_defs::Spot;

/// A name that a module defines, and its value.
#[derive(Clone, Copy, Debug, PartialEq, Eq)]
pub struct Def {
    /// The name.
    pub name: Name,
    /// Its value.
    pub value: Spot,
}

/// A name that another module defines.
#[derive(Clone, Copy, Debug, PartialEq, Eq)]
pub struct Ref {
    /// The name.
    pub name: Name,
    /// The place of its last use, which holds the place of the use before it; absolute 0 where it is never used.
    pub last: Spot,
}

/// What one source is assembled to: words at their places, names, and where it is entered.
#[derive(Debug, Drop)]
pub struct Module {
    /// The module's name.
    pub name: ModuleName,
    /// How many bytes the relocatable code takes.
    pub size: u16,
    /// The words, each with its place.
    pub pieces: Pieces,
    /// The names that it defines.
    pub defs: Defs,
    /// The names that it needs from other modules.
    pub refs: Refs,
    /// Where it is entered, if it says so.
    pub entry: Option<Spot>,
}
