//! Tagged object code both ways: modules as text, and text as modules.
#![tactic(auto)]

mod checksum;
mod error;
mod fields;
mod group;
mod group_text;
mod groups;
mod laws;
mod lists;
mod module_name;
mod open_module;
mod parts;
mod read;
mod reader;
mod spots;
mod tags;
mod write;
mod writer;

pub use error::TagError;
pub use laws::written_modules_are_read;
pub use lists::{Defs, Items, Pieces, Refs};
pub use module_name::ModuleName;
pub use object_defs::{Piece, Spot, TagCause};
pub use open_module::{MOST_NAMES, MOST_WORDS};
pub use parts::{Def, Module, Ref};
pub use read::read_modules;
pub use write::{write_lines, write_module};
pub use writer::ObjectLine;
